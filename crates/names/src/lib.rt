// Sets of small numbers, a bit for each number: of names, and of statements, which are the same sets of other sizes.
// The public contracts speak of members alone (specs/Inner/Sets.antt); no caller sees a bit.
// By value, words are read and stored at each index in turn: unrolled, these are constant indexes, where an index that a name gives would have
// the set stored to memory and loaded back at once, which stalls. A set in lent words has no such cost (`has`, `add`).

#![tactic(auto)]

mod members;

ghost use Rattle.std.specs.Prelude.{◌≡◌, ◌-◌, ◌*◌, ◌^◌, ◌<◌, length, get_or, bit_or, bit_and};
ghost use Rattle.base.specs.Lists.{all};
ghost use Rattle.base.specs.Sets.{member, members};
ghost use Rattle.names.specs.Inner.Sets.{is_empty, Empty, Only, Inserted, Removed, Union, Difference, Intersection, Next};
ghost use Rattle.names.specs.Inner.Lowest.{LowestBit};
ghost use Rattle.names.specs.Inner.Zipped.{Zipped};

pub use members::Members;

// The set of numbers below 64 * N: n is bit n % 64 of word n / 64. Laid out for C: it is part of what an exported call takes.
#[repr(C)]
#[derive(Clone, Copy)]
pub struct Set<const N: usize> {
    pub words: [u64; N],
}

// How many words a set of names has; the proofs say it in proofs/Size.antt.
pub const WORDS: usize = base::WORDS;

// How many names there are.
pub const CAPACITY: usize = 64 * WORDS;

pub type Names = Set<WORDS>;

// Two words, whatever the names: a list has at most 128 statements.
pub type Statements = Set<2>;

impl<const N: usize> Set<N> {
    pub fn empty() -> Self
        ensures { Empty result.words }
    {
        Set { words: [0; N] }
    }

    pub fn insert(self, number: usize) -> Self
        requires { number < 64 * N }
        ensures { Inserted self.entry.words number result.words }
    {
        self.union(Set::only(number))
    }

    pub fn remove(self, number: usize) -> Self
        requires { number < 64 * N }
        ensures { Removed self.entry.words number result.words }
    {
        self.difference(Set::only(number))
    }

    pub fn contains(self, number: usize) -> bool
        requires { number < 64 * N }
        ensures { result ≡ member self.entry.words number }
    {
        (self.word_at(number / 64) >> (number % 64)) & 1 == 1
    }

    pub fn union(self, other: Self) -> Self
        ensures { Union self.entry.words other.entry.words result.words }
    {
        self.zip(
            other,
            |mine, theirs| -> u64
                ensures { result ≡ bit_or mine theirs }
            { mine | theirs },
        )
    }

    // The members that are none of `other`'s.
    pub fn difference(self, other: Self) -> Self
        ensures { Difference self.entry.words other.entry.words result.words }
    {
        self.zip(
            other,
            |mine, theirs| -> u64
                ensures { result ≡ bit_and mine (2 ^ 64 - 1 - theirs) }
            { mine & !theirs },
        )
    }

    // The members that are `other`'s too.
    pub fn intersection(self, other: Self) -> Self
        ensures { Intersection self.entry.words other.entry.words result.words }
    {
        self.zip(
            other,
            |mine, theirs| -> u64
                ensures { result ≡ bit_and mine theirs }
            { mine & theirs },
        )
    }

    // The set whose words are made of these two sets'.
    fn zip<F: Fn(u64, u64) -> u64>(self, other: Self, make: F) -> Self
        requires { F.IsAlwaysCallable make }
        ensures { Zipped (F.post make) N self.entry.words other.entry.words result.words }
    {
        let mut words = self.words;
        for i in 0..N {
            words[i] = make(words[i], other.words[i]);
        }
        Set { words }
    }

    // Is there no member?
    pub fn is_empty(self) -> bool
        ensures { result ≡ is_empty self.entry.words }
    {
        self.is_subset(Set::empty())
    }

    // Is every member one of `other`'s?
    pub fn is_subset(self, other: Self) -> bool
        ensures { result ≡ all (member other.entry.words) (members self.entry.words) }
    {
        for i in 0..N {
            let theirs = other.words[i];
            if self.words[i] | theirs != theirs {
                return false;
            }
        }
        true
    }

    // The lowest member from `from` up, or the set's capacity where there is none: so always where `from` is that or more.
    pub fn next(self, from: usize) -> usize
        requires { 64 * N < 2 ^ 64 }
        ensures { Next self.entry.words (64 * N) from result }
    {
        for i in from / 64..N {
            let k = lowest(self.words[i], from.saturating_sub(64 * i));
            if k < 64 {
                return 64 * i + k;
            }
        }
        64 * N
    }

    // All members, from the lowest up: `for name in names.members()`.
    pub fn members(self) -> Members<N>
        ensures { (result.set ≡ self.entry) × (result.from ≡ 0) }
    {
        Members { set: self, from: 0 }
    }

    // The set that has `number` alone.
    fn only(number: usize) -> Self
        requires { number < 64 * N }
        ensures { Only number result.words }
    {
        let mut words = [0; N];
        for i in 0..N {
            words[i] = if i == number / 64 {
                1 << (number % 64)
            } else {
                0
            };
        }
        Set { words }
    }

    // The word at `at`.
    fn word_at(self, at: usize) -> u64
        requires { at < N }
        ensures { result ≡ get_or self.entry.words at 0 }
    {
        let mut word = 0;
        for i in 0..N {
            if i == at {
                word = self.words[i];
            }
        }
        word
    }
}

// Is the number in the set with these words? What is lent stays in memory, where a set by value is copied at each call.
pub fn has<const N: usize>(words: &[u64; N], number: usize) -> bool
    requires { (length words.now ≡ N) × (number < 64 * N) }
    ensures { result ≡ member words.now number }
{
    (words[number / 64] >> (number % 64)) & 1 == 1
}

// Puts a number into the set with these words.
pub fn add<const N: usize>(words: &mut [u64; N], number: usize)
    requires { (length words.old ≡ N) × (number < 64 * N) }
    ensures { (length words.new ≡ N) × Inserted words.old number words.new }
{
    words[number / 64] |= 1 << (number % 64);
}

// The lowest set bit of `word` from bit `from` up: 64 or more where there is none.
pub fn lowest(word: u64, from: usize) -> usize
    ensures { LowestBit word from result }
{
    if from < 64 {
        from + (word >> from).trailing_zeros() as usize
    } else {
        64
    }
}
