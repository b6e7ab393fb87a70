// Every limit of the calls, as specs/Limits.antt has it: the code says these numbers here alone.

#![tactic(auto)]

// The words of a set of names, and the words of work, in the library.
pub const WORDS: usize = 8;

pub const WORK: usize = 24576;

// And in the printing program.
pub const PRINTING_WORDS: usize = 2;

pub const PRINTING_WORK: usize = 8192;

// The largest name of each: a set has a bit for every name, and one for the empty name.
pub const NAMES: usize = 64 * WORDS - 1;

pub const PRINTING_NAMES: usize = 64 * PRINTING_WORDS - 1;

// The bytes of a sheet, and of a name.
pub const SHEET_BYTES: usize = 32768;

pub const NAME_BYTES: usize = 32;

// A value.
pub const LARGEST_VALUE: u32 = 65535;

// The rows of each section but the names.
pub const BUILT_INS: usize = 64;

pub const EXPRESSIONS: usize = 512;

pub const STATEMENTS: usize = 128;

pub const QUERIES: usize = 32;

// The parameters of a built-in.
pub const ARITY: u16 = 255;

// The definitions of a list; its statements are as many as a sheet's.
pub const DEFINITIONS: usize = 640;

// The deepest level of a query. Row 1 is level 1.
pub const NESTING: usize = 8;

// The entries that the tables have at least.
pub const TABLE_ENTRIES: usize = 8192;
