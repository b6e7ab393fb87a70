// The members of a set, one by one, from the lowest up.

ghost use Rattle.std.specs.Prelude.{◌≡◌, ◌*◌, ◌^◌, ◌<◌, ◌-◌};
ghost use Rattle.std.specs.Iterator.{at_most};
ghost use Rattle.names.specs.Inner.Members.{Yields};

use crate::Set;

// Those from `from` up.
#[derive(Clone, Copy)]
pub struct Members<const N: usize> {
    pub set: Set<N>,
    pub from: usize,
}

impl<const N: usize> Iterator for Members<N> {
    type Item = usize;

    ghost can_next = { λ m. 64 * N < 2 ^ 64 };

    ghost next_gives = { λ m r after. (after.set ≡ m.set) × Yields m.set.words (64 * N) m.from r after.from };

    ghost remaining = { λ m. at_most (64 * N - m.from) };

    fn next(&mut self) -> Option<usize> {
        let member = self.set.next(self.from);
        if member == 64 * N {
            return None;
        }
        self.from = member + 1;
        Some(member)
    }
}
