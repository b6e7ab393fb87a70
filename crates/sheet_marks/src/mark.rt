// A row's mark: how often and by what it is named, and where it lies. It is kept as one word of lent memory.

ghost use Rattle.std.specs.Prelude.{◌≡◌, ◌≤◌, ◌<◌, ◌^◌};
ghost use Rattle.base.specs.Inner.Sizes as sizes;
ghost use Rattle.sheet_marks.specs.Inner.Codes.{once_of, code_so, code_member, code_place, next_code};
ghost use Rattle.sheet_marks.specs.Inner.Homes.{settled};

// A word: 0 for a row that is not named; else one of these two ..
const NAMED_SO: u64 = 1;

const NOT_NAMED_SO: u64 = 2;

// .. for the member of a chain this besides, and in a row that is named so its place, so many times.
const MEMBER: u64 = 4;

const PLACE: u64 = 8;

#[derive(Clone, Copy)]
pub struct Mark {
    word: u64,
}

impl From<u64> for Mark {
    ghost from_gives = { λ word mark. mark.word ≡ word };

    fn from(word: u64) -> Mark {
        Mark { word }
    }
}

impl From<Mark> for u64 {
    ghost from_gives = { λ mark word. word ≡ mark.word };

    fn from(mark: Mark) -> u64 {
        mark.word
    }
}

impl Mark {
    // Is the row named exactly once, and by a smaller row?
    pub fn is_named_so(self) -> bool
        ensures { result ≡ code_so self.word }
    {
        self.word % 4 == NAMED_SO
    }

    // Is it a member of a chain?
    pub fn is_member(self) -> bool
        ensures { result ≡ code_member self.word }
    {
        self.word / MEMBER % 2 == 1
    }

    // Where the row that is named so lies: in a query, or where another row lies.
    pub fn place(self) -> usize
        ensures { (result ≡ code_place self.word) × (result < 2 ^ 61) }
    {
        (self.word / PLACE) as usize
    }

    // The mark of a row that is named once.
    fn once(up: bool, chain: bool, place: usize) -> Mark
        requires { place ≤ sizes.named_rows }
        ensures { result.word ≡ once_of up chain place }
    {
        if !up {
            return Mark { word: NOT_NAMED_SO };
        }
        let member = if chain { MEMBER } else { 0 };
        Mark {
            word: NAMED_SO + member + PLACE * place as u64,
        }
    }

    // The mark after one naming more, by a smaller row or not, as the member of a chain or not.
    #[tactic(auto, unfolding(crate::specs::Inner::Codes::next_code))]
    pub(crate) fn after(self, up: bool, chain: bool, place: usize) -> Mark
        requires { place ≤ sizes.named_rows }
        ensures { result.word ≡ next_code self.word up chain place }
    {
        if self.word == 0 {
            return Mark::once(up, chain, place);
        }
        let member = self.is_member() || (chain && up);
        Mark {
            word: NOT_NAMED_SO + if member { MEMBER } else { 0 },
        }
    }

    // The mark with the row's query for its place.
    #[tactic(auto, unfolding(crate::specs::Inner::Homes::settled))]
    pub(crate) fn settled_in(self, query: usize) -> Mark
        requires { query < 2 ^ 61 }
        ensures { result.word ≡ settled self.word query }
    {
        if !self.is_named_so() {
            return self;
        }
        Mark {
            word: self.word % PLACE + PLACE * query as u64,
        }
    }
}
