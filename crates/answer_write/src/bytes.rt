// Bytes at a place of lent bytes. Each function answers the place behind them: it stays in a register, where in a `Text` behind a reference it
// is read and written for each byte, which was measured slower. So are numbers of more bits.

ghost use Rattle.std.specs.Prelude.{[], ◌∷◌};
ghost use Rattle.answer_write.specs.Inner.Writes.{Puts};
ghost use Rattle.answer_write.specs.Inner.Decimal.{PutsNumber};

pub(crate) fn put_byte(bytes: &mut [u8], at: usize, byte: u8) -> usize
    ensures { Puts bytes.old at (byte ∷ []) bytes.new result }
{
    let room = bytes.len();
    if at < room {
        bytes[at] = byte;
        return at + 1;
    }
    room + 1
}

// A number in decimal.
pub(crate) fn put_number(bytes: &mut [u8], at: usize, n: u16) -> usize
    ensures { PutsNumber bytes.old at n bytes.new result }
{
    if n < 10 {
        return put_byte(bytes, at, b'0' + n as u8);
    }
    let front = put_number(bytes, at, n / 10);
    put_byte(bytes, front, b'0' + (n % 10) as u8)
}
