// Question 4: are the names well made, and strictly ascending in bytes?

#![tactic(auto)]

ghost use Rattle.std.specs.Prelude.{◌≡◌, true, drop};
ghost use Rattle.sheet.specs.Text.{lines};
ghost use Rattle.sheet.specs.Form.{same};
ghost use Rattle.sheet.specs.Inner.Lines.{is_line};
ghost use Rattle.sheet.specs.Inner.Answers.{unless_fault};
ghost use Rattle.sheet.specs.Questions.{letter, letter_or_digit, before, form_fault, names_fault};
ghost use Rattle.sheet_names.specs.Inner.Names.{NameRead, found, SpecialRead};

use sheet::Special;

// A letter, or `_`.
fn is_letter(b: u8) -> bool
    ensures { result ≡ letter b }
{
    b.is_ascii_alphabetic() || b == b'_'
}

fn is_letter_or_digit(b: u8) -> bool
    ensures { result ≡ letter_or_digit b }
{
    is_letter(b) || b.is_ascii_digit()
}

// The place behind the line at a place, if that is a name.
fn name_at(s: &[u8], at: usize) -> Option<usize>
    requires { is_line (lines (drop at s.now)) ≡ true }
    ensures { NameRead s.now at result }
{
    let length = s[at..].iter().position(|byte| !is_letter_or_digit(*byte))?;
    let end = at + length;
    if !is_letter(s[at]) || s[end] != b'\n' || base::NAME_BYTES < length {
        return None;
    }
    Some(end + 1)
}

// Does a name stand before another, in the order of bytes?
#[tactic(auto, using(crate::proofs::Laws::Order::before_as_slices))]
fn is_before(first: &[u8], second: &[u8]) -> bool
    ensures { result ≡ before first.now second.now }
{
    first < second
}

// The first line whose name is at fault. The names stand behind the five bytes of the heading, up to an empty line.
pub fn check_names(s: &[u8]) -> Result<(), usize>
    requires { form_fault s.now ≡ 0 }
    ensures { result ≡ unless_fault (names_fault s.now) }
{
    let mut last: &[u8] = &[];
    let mut at = 5;
    let mut line = 2;
    while s[at] != b'\n' {
        let Some(next) = name_at(s, at) else {
            return Err(line);
        };
        let name = &s[at..next - 1];
        if !is_before(last, name) {
            return Err(line);
        }
        last = name;
        at = next;
        line += 1;
    }
    Ok(())
}

// The row where a name is found first: an earlier one, or the row of a line that is the name; else 0.
fn find(line: &[u8], name: &[u8], row: usize, earlier: usize) -> usize
    ensures { result ≡ found earlier (same line.now name.now) row }
{
    if earlier == 0 && line == name {
        row
    } else {
        earlier
    }
}

// The rows of `_`, `input` and `data`.
pub fn special_names(s: &[u8]) -> Special
    requires { form_fault s.now ≡ 0 }
    ensures { SpecialRead s.now result }
{
    let mut blank = 0;
    let mut input = 0;
    let mut data = 0;
    let mut at = 5;
    let mut row = 1;
    while let Some(next) = sheet_sections::skip_line(s, at) {
        let line = &s[at..next - 1];
        if line.is_empty() {
            break;
        }
        blank = find(line, b"_", row, blank);
        input = find(line, b"input", row, input);
        data = find(line, b"data", row, data);
        at = next;
        row += 1;
    }
    Special { blank, input, data }
}
