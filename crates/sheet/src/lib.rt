// The rows of a sheet, and where they stand in the tables.

#![tactic(auto)]

mod fields;
mod kinds;

ghost use Rattle.std.specs.Prelude.{◌≡◌};
ghost use Rattle.sheet.specs.Verdict.{refusal_number, refusal_line};

use base::{BUILT_INS, EXPRESSIONS, NAMES, QUERIES, STATEMENTS};
pub use fields::{Field, FormFields, KindFields, Section};
pub use kinds::{Form, Kind};

// Room for rows of so many values: row r, counted from 1, stands at start + width * r.
#[derive(Clone, Copy)]
pub struct Area {
    pub start: usize,
    pub width: usize,
    pub rows: usize,
}

// The entries in front of the areas are for counts. A name has no values, so names take no room.
pub const NAME_AREA: Area = Area {
    start: 8,
    width: 0,
    rows: NAMES,
};

// Each area starts where the one before it ends.
pub const BUILT_IN_AREA: Area = Area {
    start: NAME_AREA.start + NAME_AREA.width * (NAMES + 1),
    width: 4,
    rows: BUILT_INS,
};

pub const EXPRESSION_AREA: Area = Area {
    start: BUILT_IN_AREA.start + BUILT_IN_AREA.width * (BUILT_INS + 1),
    width: 8,
    rows: EXPRESSIONS,
};

pub const STATEMENT_AREA: Area = Area {
    start: EXPRESSION_AREA.start + EXPRESSION_AREA.width * (EXPRESSIONS + 1),
    width: 7,
    rows: STATEMENTS,
};

pub const QUERY_AREA: Area = Area {
    start: STATEMENT_AREA.start + STATEMENT_AREA.width * (STATEMENTS + 1),
    width: 1,
    rows: QUERIES,
};

// The rows of the names that the language gives a meaning, or 0.
#[derive(Clone, Copy)]
pub struct Special {
    pub blank: usize,
    pub input: usize,
    pub data: usize,
}

// Why a sheet is refused: the first question that it fails, with the first line at fault.
#[derive(Clone, Copy, Debug, PartialEq, Eq)]
pub enum Refusal {
    NoRoom,
    TooLong,
    BadForm(usize),
    BadName(usize),
    BadCount(usize),
    BadField(usize),
}

impl Refusal {
    // The number that it is returned as.
    pub fn number(self) -> u16
        ensures { result ≡ refusal_number self }
    {
        match self {
            Refusal::NoRoom => 1,
            Refusal::TooLong => 2,
            Refusal::BadForm(_) => 3,
            Refusal::BadName(_) => 4,
            Refusal::BadCount(_) => 5,
            Refusal::BadField(_) => 6,
        }
    }

    // Its line at fault, or 0 where it has none.
    pub fn line(self) -> usize
        ensures { result ≡ refusal_line self }
    {
        match self {
            Refusal::NoRoom | Refusal::TooLong => 0,
            Refusal::BadForm(line)
            | Refusal::BadName(line)
            | Refusal::BadCount(line)
            | Refusal::BadField(line) => line,
        }
    }
}

// A built-in's arity and path.
#[derive(Clone, Copy)]
pub struct Builtin {
    pub arity: u16,
    pub first: u16,
    pub second: u16,
    pub third: u16,
}

#[derive(Clone, Copy)]
pub struct Statement {
    pub form: u16,
    pub first: u16,
    pub second: u16,
    pub third: u16,
    pub query: u16,
    pub with: u16,
    pub next: u16,
}

// An expression and its position.
#[derive(Clone, Copy)]
pub struct Row {
    pub kind: u16,
    pub name: u16,
    pub line: u16,
    pub col: u16,
    pub first: u16,
    pub second: u16,
    pub third: u16,
    pub next: u16,
}

// How many rows each section has.
#[derive(Clone, Copy)]
pub struct Counts {
    pub names: usize,
    pub builtins: usize,
    pub exprs: usize,
    pub statements: usize,
    pub queries: usize,
}
