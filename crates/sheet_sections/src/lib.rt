// A section of a sheet: its heading, and its rows up to an empty line, whose values go into the tables.

#![tactic(auto)]

ghost use Rattle.std.specs.Prelude.{◌≡◌, true, ◌≤◌, length, drop};
ghost use Rattle.sheet.specs.Text.{lines};
ghost use Rattle.sheet.specs.Inner.LineBytes.{no_newline};
ghost use Rattle.sheet.specs.Inner.Headings.{has_line};
ghost use Rattle.sheet.specs.Tables.{area_end};
ghost use Rattle.sheet_sections.specs.Inner.Lines.{LineEnd, LineRead, LinePut};
ghost use Rattle.sheet_sections.specs.Inner.Blocks.{RowsRead};
ghost use Rattle.sheet_sections.specs.Inner.Sections.{SoundProgress, SectionRead};

use sheet::Area;

// How many rows a section has up to its empty line, and the place behind that.
#[derive(Clone, Copy)]
pub struct Rows {
    pub next: usize,
    pub rows: usize,
}

// How far a sheet is read: the next place and its line, and the rows of the last section.
#[derive(Clone, Copy)]
pub struct Progress {
    pub next: usize,
    pub line: usize,
    pub rows: usize,
}

// The place behind the line at a place, whatever it holds.
pub fn skip_line(s: &[u8], at: usize) -> Option<usize>
    requires { at ≤ length s.now }
    ensures { LineEnd s.now at result }
{
    let length = s[at..].iter().position(|byte| *byte == b'\n')?;
    Some(at + length + 1)
}

// The row at a place: its values, or a name where it has none.
fn line_at(s: &[u8], at: usize, row: &mut [u16]) -> Option<usize>
    requires { at ≤ length s.now }
    ensures { LineRead s.now at (length row.old) result row.new }
{
    if row.is_empty() {
        return skip_line(s, at);
    }
    sheet_values::row_at(s, at, row)
}

// The line at a place as row r of an area, which gets it if it has such a row.
fn put_line(s: &[u8], at: usize, area: Area, r: usize, table: &mut [u16]) -> Option<usize>
    requires { (at ≤ length s.now) × (area.width ≤ 8) × (area_end area ≤ length table.old) }
    ensures { LinePut s.now at area r table.old result table.new }
{
    if r <= area.rows {
        let to = area.start + area.width * r;
        return line_at(s, at, &mut table[to..to + area.width]);
    }
    let mut unused = [0; sheet::EXPRESSION_AREA.width];
    line_at(s, at, &mut unused[..area.width])
}

// The rows from a place up to an empty line, or how many stand in front of the line at fault.
fn rows_at(s: &[u8], at: usize, area: Area, table: &mut [u16]) -> Result<Rows, usize>
    requires { (at ≤ length s.now) × (area.width ≤ 8) × (area_end area ≤ length table.old) }
    ensures { RowsRead s.now at area table.old result table.new }
{
    let mut next = at;
    let mut rows = 0;
    while next < s.len() {
        if s[next] == b'\n' {
            return Ok(Rows {
                next: next + 1,
                rows,
            });
        }
        let Some(behind) = put_line(s, next, area, rows + 1, table) else {
            return Err(rows);
        };
        next = behind;
        rows += 1;
    }
    Err(rows)
}

// Is the line at a place the heading?
pub fn line_is(s: &[u8], at: usize, heading: &[u8]) -> bool
    requires { (at ≤ length s.now) × (no_newline heading.now ≡ true) }
    ensures { result ≡ has_line heading.now (lines (drop at s.now)) }
{
    let Some(rest) = s[at..].strip_prefix(heading) else {
        return false;
    };
    rest.starts_with(b"\n")
}

// The section that comes next, or the first line of it at fault.
pub fn section_at(
    s: &[u8],
    p: Progress,
    heading: &[u8],
    area: Area,
    table: &mut [u16],
) -> Result<Progress, usize>
    requires sound_progress { SoundProgress s.now p }
    requires heading_is_line { no_newline heading.now ≡ true }
    requires area_fits { (area.width ≤ 8) × (area_end area ≤ length table.old) }
    ensures { SectionRead s.now p heading.now area table.old result table.new }
{
    if !line_is(s, p.next, heading) {
        return Err(p.line);
    }
    match rows_at(s, p.next + heading.len() + 1, area, table) {
        Ok(block) => Ok(Progress {
            next: block.next,
            line: p.line + block.rows + 2,
            rows: block.rows,
        }),
        Err(rows) => Err(p.line + 1 + rows),
    }
}
