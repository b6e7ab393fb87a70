// Text that is written into lent bytes.

#![tactic(auto)]

mod bytes;

ghost use Rattle.std.specs.Prelude.{◌≡◌, [], ◌∷◌, ◌++◌, ◌≤◌};
ghost use Rattle.base.specs.Limits as limits;
ghost use Rattle.answer.specs.Text.{decimal};

use crate::bytes::{put_byte, put_number};

// The bytes, and the place behind the text. A place past the bytes counts as one past them: so the text is told to fit or not when all is
// written.
#[derive(Drop)]
pub struct Text<'a> {
    bytes: &'a mut [u8],
    end: usize,
}

impl<'a> Text<'a> {
    ghost use Rattle.answer_write.specs.Inner.Texts.{Extends};

    pub fn new(bytes: &'a mut [u8]) -> Text<'a>
        ensures same { result.bytes.ghost_name ≡ bytes.entry.ghost_name }
        ensures bytes { result.bytes.now ≡ bytes.old }
        ensures start { result.end ≡ 0 }
    {
        Text { bytes, end: 0 }
    }

    pub fn put(&mut self, byte: u8)
        ensures { Extends self.old (byte ∷ []) self.new }
    {
        self.end = put_byte(self.bytes, self.end, byte);
    }

    pub fn put_bytes(&mut self, bytes: &[u8])
        ensures { Extends self.old bytes.now self.new }
    {
        for byte in bytes {
            self.put(*byte);
        }
    }

    // A value and a byte behind it: a space, or the end of the line.
    pub fn put_value(&mut self, n: usize, end: u8)
        requires { n ≤ limits.largest_value }
        ensures { Extends self.old (decimal n ++ (end ∷ [])) self.new }
    {
        let behind = put_number(self.bytes, self.end, n as u16);
        self.end = put_byte(self.bytes, behind, end);
    }

    // How many bytes the text has, or one more than there is room for.
    pub fn end(&self) -> usize
        ensures { result ≡ self.now.end }
    {
        self.end
    }
}
