// What the fields of a row hold, by its kind or form.

#![tactic(auto)]

ghost use Rattle.std.specs.Prelude.{◌≡◌, ℕ};
ghost use Rattle.sheet.specs.Fields.{limit_of, kind_of, form_of};
ghost use Rattle.sheet.specs.Inner.Kinds.{KindNumbered, FormNumbered};

use sheet::{Counts, Field, Form, FormFields, Kind, KindFields, Section};

// ---- what a field holds

// Nothing: the field is not listed, and is 0.
pub const ABSENT: Field = Field {
    section: None,
    set: false,
    term: false,
    chain: false,
    var: false,
    pairs: false,
};

const NAME_OR_NONE: Field = Field {
    section: Some(Section::Name),
    ..ABSENT
};

const NAME: Field = Field {
    set: true,
    ..NAME_OR_NONE
};

// An expression that lies where its whole does.
const PART_OR_NONE: Field = Field {
    section: Some(Section::Expression),
    ..ABSENT
};

const PART: Field = Field {
    set: true,
    ..PART_OR_NONE
};

// A comprehension's term, key or value, which lies in the comprehension's query.
const TERM: Field = Field { term: true, ..PART };

const VAR_OR_NONE: Field = Field {
    var: true,
    ..PART_OR_NONE
};

const VAR: Field = Field {
    set: true,
    ..VAR_OR_NONE
};

// The first of a chain, or 0. So is a statement's `with`, and the `next` of a chain's member.
pub const CHAIN_OR_NONE: Field = Field {
    chain: true,
    ..PART_OR_NONE
};

const CHAIN_OF_VARS: Field = Field {
    set: true,
    var: true,
    ..CHAIN_OR_NONE
};

const CHAIN_OF_PAIRS: Field = Field {
    pairs: true,
    ..CHAIN_OR_NONE
};

// A query's first statement, or a statement's `next`, or 0.
pub const STATEMENT_OR_NONE: Field = Field {
    section: Some(Section::Statement),
    ..ABSENT
};

pub const QUERY: Field = Field {
    section: Some(Section::Query),
    set: true,
    ..ABSENT
};

// ---- what the fields of a kind hold

const NO_KIND: KindFields = KindFields {
    name: ABSENT,
    first: ABSENT,
    second: ABSENT,
    third: ABSENT,
};

const ONE_NAME: KindFields = KindFields {
    name: NAME,
    ..NO_KIND
};

const NAME_OR_NOTHING: KindFields = KindFields {
    name: NAME_OR_NONE,
    ..NO_KIND
};

const ONE_CHAIN: KindFields = KindFields {
    first: CHAIN_OR_NONE,
    ..NO_KIND
};

const ONE_CHAIN_OF_PAIRS: KindFields = KindFields {
    first: CHAIN_OF_PAIRS,
    ..NO_KIND
};

const TERM_AND_QUERY: KindFields = KindFields {
    first: TERM,
    third: QUERY,
    ..NO_KIND
};

const TWO_TERMS_AND_QUERY: KindFields = KindFields {
    first: TERM,
    second: TERM,
    third: QUERY,
    ..NO_KIND
};

const ONE_PART: KindFields = KindFields {
    first: PART,
    ..NO_KIND
};

const PART_AND_NAME: KindFields = KindFields {
    name: NAME,
    first: PART,
    ..NO_KIND
};

const PART_AND_CHAIN: KindFields = KindFields {
    first: PART,
    second: CHAIN_OR_NONE,
    ..NO_KIND
};

const TWO_PARTS: KindFields = KindFields {
    first: PART,
    second: PART,
    ..NO_KIND
};

const TWO_OR_THREE_PARTS: KindFields = KindFields {
    first: PART_OR_NONE,
    second: PART,
    third: PART,
    ..NO_KIND
};

// An unknown kind lists none.
pub fn of_kind(kind: Kind) -> &'static KindFields
    ensures { (number : ℕ) → KindNumbered number kind → result.now ≡ kind_of number }
{
    match kind {
        Kind::String => &NAME_OR_NOTHING,
        Kind::Var => &ONE_NAME,
        Kind::Array | Kind::Set => &ONE_CHAIN,
        Kind::Object => &ONE_CHAIN_OF_PAIRS,
        Kind::ArrayCompr | Kind::SetCompr => &TERM_AND_QUERY,
        Kind::ObjectCompr => &TWO_TERMS_AND_QUERY,
        Kind::Call => &PART_AND_CHAIN,
        Kind::UnaryExpr => &ONE_PART,
        Kind::RefDot => &PART_AND_NAME,
        Kind::RefBrack | Kind::BinExpr | Kind::BoolExpr | Kind::ArithExpr => &TWO_PARTS,
        Kind::AssignEq | Kind::AssignColEq => &TWO_PARTS,
        Kind::Membership => &TWO_OR_THREE_PARTS,
        Kind::RawString | Kind::Number | Kind::Bool | Kind::Null | Kind::Unknown => &NO_KIND,
    }
}

// ---- what the fields of a form hold

const NO_FORM: FormFields = FormFields {
    first: ABSENT,
    second: ABSENT,
    third: ABSENT,
    query: ABSENT,
};

const FIRST_OF_VARS: FormFields = FormFields {
    first: CHAIN_OF_VARS,
    ..NO_FORM
};

const FIRST_PART: FormFields = FormFields {
    first: PART,
    ..NO_FORM
};

const KEY_VALUE_AND_WHOLE: FormFields = FormFields {
    first: PART_OR_NONE,
    second: PART,
    third: PART,
    ..NO_FORM
};

const VARS_WHOLE_AND_QUERY: FormFields = FormFields {
    first: VAR_OR_NONE,
    second: VAR,
    third: PART,
    query: QUERY,
};

// An unknown form lists none.
pub fn of_form(form: Form) -> &'static FormFields
    ensures { (number : ℕ) → FormNumbered number form → result.now ≡ form_of number }
{
    match form {
        Form::SomeVars => &FIRST_OF_VARS,
        Form::SomeIn => &KEY_VALUE_AND_WHOLE,
        Form::Expr | Form::NotExpr => &FIRST_PART,
        Form::Every => &VARS_WHOLE_AND_QUERY,
        Form::Unknown => &NO_FORM,
    }
}

// How many rows a section has.
pub fn limit(counts: &Counts, section: Option<Section>) -> usize
    ensures { result ≡ limit_of counts.now section }
{
    match section {
        Some(Section::Name) => counts.names,
        Some(Section::Expression) => counts.exprs,
        Some(Section::Statement) => counts.statements,
        Some(Section::Query) => counts.queries,
        None => 0,
    }
}
