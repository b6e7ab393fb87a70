// The text of an answer, from the words that the analysis stores (specs/Inner/Stored.antt).

#![tactic(auto)]

pub mod answers;
mod places;
mod queries;
pub mod rows;
mod sections;
mod sets;

ghost use Rattle.std.specs.Prelude.{◌≤◌};
ghost use Rattle.base.specs.Limits as limits;
ghost use Rattle.answer_text.specs.Inner.Sections.{PutsAnswer};

use crate::answers::Answers;
use crate::sections::put_section;
use answer_write::Text;

// The three sections, about this many queries.
pub fn put_answer(answers: Answers, queries: usize, text: &mut Text)
    requires { queries ≤ limits.most_queries }
    ensures { PutsAnswer answers.entry.blocks.width answers.entry.blocks.words.now queries text.old text.new }
{
    put_section(
        text,
        b"query placed input\n",
        queries,
        |text, q| answers.put_query(q, text),
    );
    put_section(
        text,
        b"query place index reached\n",
        queries,
        |text, q| answers.put_places(q, text),
    );
    put_section(
        text,
        b"query set name line col\n",
        queries,
        |text, q| answers.put_sets(q, text),
    );
}
