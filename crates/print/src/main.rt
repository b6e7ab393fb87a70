// The printing program: a sheet from standard input, its answer or its refusal to standard output.

#![tactic(auto)]

mod input;
mod printing;

use crate::input::read_full;
use crate::printing::put_printed;
use base::{PRINTING_WORK, SHEET_BYTES, TABLE_ENTRIES};
use std::io::{self, Write};

// Room for an answer.
const ANSWER_BYTES: usize = 65536;

fn print(output: &mut impl Write, sheet: &[u8]) -> io::Result<()> {
    let mut tables = [0u16; TABLE_ENTRIES];
    let mut work = [0u64; PRINTING_WORK];
    let mut answer = [0u8; ANSWER_BYTES];
    let end = put_printed(sheet, &mut tables, &mut work, &mut answer);
    output.write_all(&answer[..end])
}

// One byte more is read than a sheet may have, so that a longer one is refused.
fn main(rt: HostRuntime) -> io::Result<()> {
    let mut sheet = [0u8; SHEET_BYTES + 1];
    let length = read_full(&mut rt.stdin(), &mut sheet)?;
    print(&mut rt.stdout(), &sheet[..length])
}
