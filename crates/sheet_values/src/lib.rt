// A row of values, read from the bytes of a sheet.

#![tactic(auto)]

ghost use Rattle.std.specs.Prelude.{◌≡◌, ◌<◌, ◌≤◌, length, drop, IfSome};
ghost use Rattle.sheet.specs.Text.{plain};
ghost use Rattle.sheet_values.specs.Inner.Numbers.{digit_at, NumberRead};
ghost use Rattle.sheet_values.specs.Inner.Fields.{FieldRead};
ghost use Rattle.sheet_values.specs.Inner.Rows.{RowRead};

// The largest value.
const LARGEST: u32 = base::LARGEST_VALUE;

// A number, and the place behind what is read of it: its digits, or its separator.
#[derive(Clone, Copy)]
struct Number {
    value: u16,
    next: usize,
}

// The digit at a place, if one is there.
fn digit_at(s: &[u8], i: usize) -> Option<u32>
    requires { i ≤ length s.now }
    ensures value { result ≡ digit_at (drop i s.now) }
    ensures small { IfSome result (λ d. d < 10) }
{
    let byte = *s.get(i)?;
    if !byte.is_ascii_digit() {
        return None;
    }
    Some(u32::from(byte - b'0'))
}

// Is there a digit, and no other behind a 0 that leads?
fn is_plain(digits: &[u8]) -> bool
    ensures { result ≡ plain digits.now }
{
    match digits {
        [] => false,
        [b'0', _, ..] => false,
        _ => true,
    }
}

// The number at a place.
fn number_at(s: &[u8], at: usize) -> Option<Number>
    requires { at ≤ length s.now }
    ensures { NumberRead (drop at s.now) at result }
{
    let mut value = 0;
    let mut next = at;
    while let Some(digit) = digit_at(s, next) {
        value = value * 10 + digit;
        if LARGEST < value {
            return None;
        }
        next += 1;
    }
    if !is_plain(&s[at..next]) {
        return None;
    }
    Some(Number {
        value: value as u16,
        next,
    })
}

// The number at a place, and the separator behind it. Most numbers are one digit, which is looked for first.
fn field_at(s: &[u8], at: usize, separator: u8) -> Option<Number>
    requires { at ≤ length s.now }
    ensures { FieldRead s.now at separator result }
{
    let end = at + 1;
    if end < s.len() && s[end] == separator {
        if let Some(digit) = digit_at(s, at) {
            return Some(Number {
                value: digit as u16,
                next: end + 1,
            });
        }
    }
    long_field_at(s, at, separator)
}

// The number at a place, of any length, and the separator behind it.
fn long_field_at(s: &[u8], at: usize, separator: u8) -> Option<Number>
    requires { at ≤ length s.now }
    ensures { FieldRead s.now at separator result }
{
    let number = number_at(s, at)?;
    let end = number.next;
    if end < s.len() && s[end] == separator {
        return Some(Number {
            next: end + 1,
            ..number
        });
    }
    None
}

// The row of values at a place, and the place behind it. Where the row has not the form, only some of its values are stored.
pub fn row_at(s: &[u8], at: usize, row: &mut [u16]) -> Option<usize>
    requires { (at ≤ length s.now) × (0 < length row.old) }
    ensures { RowRead s.now at (length row.old) result row.new }
{
    let last = row.len() - 1;
    let mut next = at;
    // By index, since no proof sees what is stored through `iter_mut`.
    for i in 0..last {
        let field = field_at(s, next, b' ')?;
        row[i] = field.value;
        next = field.next;
    }
    let field = field_at(s, next, b'\n')?;
    row[last] = field.value;
    Some(field.next)
}
