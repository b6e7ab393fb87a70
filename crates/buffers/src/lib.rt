// What is written into lent buffers whole: zeros, and the numbers from 0 up.

#![tactic(auto)]

ghost use Rattle.std.specs.Prelude.{◌≡◌, ◌++◌, ◌≤◌, length, drop, replicate};
ghost use Rattle.base.specs.Lists.{range};

// What a lent buffer has: a number, of which one is zero.
pub trait Element: Copy {
    ghost zero: { Self };

    fn zero() -> Self
        ensures { result ≡ zero };
}

impl Element for u8 {
    ghost zero = { 0 };

    fn zero() -> u8 {
        0
    }
}

impl Element for u16 {
    ghost zero = { 0 };

    fn zero() -> u16 {
        0
    }
}

impl Element for u64 {
    ghost zero = { 0 };

    fn zero() -> u64 {
        0
    }
}

// Zeros throughout.
pub fn clear<T: Element>(buffer: &mut [T])
    ensures { buffer.new ≡ replicate (length buffer.old) T.zero }
{
    for element in buffer.iter_mut() {
        *element = T::zero();
    }
}

// The numbers below n at the front; the rest stays.
pub fn count_up(buffer: &mut [u16], n: usize)
    requires { (n ≤ 65536) × (n ≤ length buffer.old) }
    ensures { buffer.new ≡ range 0 n ++ drop n buffer.old }
{
    for i in 0..n {
        buffer[i] = i as u16;
    }
}
