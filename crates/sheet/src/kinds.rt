// The kinds of expressions and the forms of statements. The code says their numbers in a sheet here alone.

ghost use Rattle.sheet.specs.Inner.Kinds.{KindNumbered, FormNumbered};

#[derive(Clone, Copy, Debug, PartialEq, Eq)]
pub enum Kind {
    String,
    RawString,
    Number,
    Bool,
    Null,
    Var,
    Array,
    Set,
    Object,
    ArrayCompr,
    SetCompr,
    ObjectCompr,
    Call,
    UnaryExpr,
    RefDot,
    RefBrack,
    BinExpr,
    BoolExpr,
    ArithExpr,
    // An AssignExpr `Eq`, that is `=`.
    AssignEq,
    // An AssignExpr `ColEq`, that is `:=`.
    AssignColEq,
    Membership,
    // Any other number.
    Unknown,
}

impl From<u16> for Kind {
    ghost from_gives = { KindNumbered };

    fn from(number: u16) -> Kind {
        match number {
            1 => Kind::String,
            2 => Kind::RawString,
            3 => Kind::Number,
            4 => Kind::Bool,
            5 => Kind::Null,
            6 => Kind::Var,
            7 => Kind::Array,
            8 => Kind::Set,
            9 => Kind::Object,
            10 => Kind::ArrayCompr,
            11 => Kind::SetCompr,
            12 => Kind::ObjectCompr,
            13 => Kind::Call,
            14 => Kind::UnaryExpr,
            15 => Kind::RefDot,
            16 => Kind::RefBrack,
            17 => Kind::BinExpr,
            18 => Kind::BoolExpr,
            19 => Kind::ArithExpr,
            20 => Kind::AssignEq,
            21 => Kind::AssignColEq,
            22 => Kind::Membership,
            _ => Kind::Unknown,
        }
    }
}

#[derive(Clone, Copy, Debug, PartialEq, Eq)]
pub enum Form {
    SomeVars,
    SomeIn,
    Expr,
    NotExpr,
    Every,
    // Any other number.
    Unknown,
}

impl From<u16> for Form {
    ghost from_gives = { FormNumbered };

    fn from(number: u16) -> Form {
        match number {
            1 => Form::SomeVars,
            2 => Form::SomeIn,
            3 => Form::Expr,
            4 => Form::NotExpr,
            5 => Form::Every,
            _ => Form::Unknown,
        }
    }
}
