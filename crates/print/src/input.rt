// Reading until a buffer is full.

ghost use Rattle.std.specs.Prelude.{IfOk};
ghost use Rattle.io.specs.Counts.{IsPrefixLen};

use std::io::{self, Read};

// Reads until `buf` is full or the input ends, and answers how many bytes stand at its start.
pub fn read_full(input: &mut impl Read, buf: &mut [u8]) -> io::Result<usize>
    ensures { IfOk result (λ n. IsPrefixLen n buf.new) }
{
    let mut done = 0;
    while done < buf.len() {
        let n = input.read(&mut buf[done..])?;
        if n == 0 {
            break;
        }
        done += n;
    }
    Ok(done)
}
