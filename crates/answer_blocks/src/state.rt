// What is said of a query: the first word of its block, and which of its sets.

ghost use Rattle.std.specs.Prelude.{◌≡◌, ◌+◌};
ghost use Rattle.answer_blocks.specs.Inner.States.{state_word, block_state, set_index};

// How far the analysis of a query came. An analysed one is placed where its statements could be put into an order.
#[derive(Clone, Copy, PartialEq, Eq)]
pub enum State {
    Unanalysed,
    Unplaced,
    Placed,
}

impl From<State> for u64 {
    fn from(state: State) -> u64
        ensures { result ≡ state_word state }
    {
        state as u64
    }
}

impl From<u64> for State {
    fn from(word: u64) -> State
        ensures { result ≡ block_state word }
    {
        match word {
            0 => State::Unanalysed,
            1 => State::Unplaced,
            _ => State::Placed,
        }
    }
}

// The sets of a query, in the order of its block.
#[derive(Clone, Copy)]
pub enum QuerySet {
    Locals,
    Unscoped,
    Inputs,
}

impl QuerySet {
    pub fn index(self) -> usize
        ensures { result ≡ set_index self }
    {
        self as usize
    }

    // Its number in the text.
    pub fn number(self) -> usize
        ensures { result ≡ set_index self + 1 }
    {
        self.index() + 1
    }
}
