// What is said of a query in the section `query set name line col`: its sets, with where its locals stand.

ghost use Rattle.std.specs.Prelude.{◌≤◌};
ghost use Rattle.base.specs.Limits as limits;
ghost use Rattle.answer_write.specs.Inner.Texts.{Extends};
ghost use Rattle.answer_blocks.specs.Inner.Layout.{word_at};
ghost use Rattle.answer_text.specs.Inner.Ranges.{texts};
ghost use Rattle.answer_text.specs.Inner.Texts.{local_line, name_line, sets_text};

use crate::answers::Answers;
use crate::rows::put_row;
use answer_blocks::state::{QuerySet, State};
use answer_write::Text;

impl Answers<'_> {
    // The locals of an analysed query.
    fn put_locals(self, q: usize, text: &mut Text)
        requires { (1 ≤ q) × (q ≤ limits.most_queries) × (1 ≤ word_at self.blocks.width self.blocks.words.now q 0) }
        ensures { Extends text.old (texts (local_line self.entry.blocks.width self.entry.blocks.words.now q) 0 limits.per_name) text.new }
    {
        let names = self.blocks.set(q, QuerySet::Locals);
        for x in names.members() {
            let span = self.blocks.span(q, x) as usize;
            put_row(text, &[q, 1, x, span / 65536, span % 65536]);
        }
    }

    // The names of a set, with no position.
    fn put_names(self, q: usize, set: QuerySet, text: &mut Text)
        requires { (1 ≤ q) × (q ≤ limits.most_queries) }
        ensures { Extends text.old (texts (name_line self.entry.blocks.width self.entry.blocks.words.now q set) 0 limits.per_name) text.new }
    {
        let names = self.blocks.set(q, set);
        for x in names.members() {
            put_row(text, &[q, set.number(), x, 0, 0]);
        }
    }

    // A line for each name of its sets: none where it is never analysed.
    pub(crate) fn put_sets(self, q: usize, text: &mut Text)
        requires { (1 ≤ q) × (q ≤ limits.most_queries) }
        ensures { Extends text.old (sets_text self.entry.blocks.width self.entry.blocks.words.now q) text.new }
    {
        if self.blocks.state(q) == State::Unanalysed {
            return;
        }
        self.put_locals(q, text);
        self.put_names(q, QuerySet::Unscoped, text);
        self.put_names(q, QuerySet::Inputs, text);
    }
}
