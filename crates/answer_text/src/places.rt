// What is said of a query in the section `query place index reached`.

ghost use Rattle.std.specs.Prelude.{◌≤◌};
ghost use Rattle.base.specs.Limits as limits;
ghost use Rattle.answer_write.specs.Inner.Texts.{Extends};
ghost use Rattle.answer_text.specs.Inner.Texts.{places_text};

use crate::answers::Answers;
use crate::rows::put_row;
use answer_blocks::state::State;
use answer_write::Text;

impl Answers<'_> {
    // A line for each of its places: none where it is never analysed.
    pub(crate) fn put_places(self, q: usize, text: &mut Text)
        requires { (1 ≤ q) × (q ≤ limits.most_queries) }
        ensures { Extends text.old (places_text self.entry.blocks.width self.entry.blocks.words.now q) text.new }
    {
        if self.blocks.state(q) == State::Unanalysed {
            return;
        }
        for k in 0..self.blocks.count(q) {
            let place = self.blocks.place(q, k) as usize;
            put_row(text, &[q, k, place / 2, place % 2]);
        }
    }
}
