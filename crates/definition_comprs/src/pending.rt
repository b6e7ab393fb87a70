// Which query of a comprehension is still to be analysed.

ghost use Rattle.std.specs.Prelude.{◌≡◌, ◌≤◌, length};
ghost use Rattle.answer_blocks.specs.Inner.Layout.{answers_size};
ghost use Rattle.answer_blocks.specs.Inner.Asks.{AsksBlock};
ghost use Rattle.definition_comprs.specs.Inner.Queries.{QueryIn};
ghost use Rattle.definition_comprs.specs.Inner.Pending.{unscheduled_at, pending_at};

use crate::taken::block_word;
use answer_blocks::STATE;
use definition_state::Progress;
use definition_walk::row::is_compr;
use names_width::Width;
use sheet::Row;

// The query, or 0 where it has a schedule: each is analysed at most once.
fn unscheduled(work: &[u64], query: usize, width: Width) -> usize
    requires { AsksBlock width work.now query }
    ensures { result ≡ unscheduled_at width work.now query }
{
    let state = block_word(work, query, STATE, width);
    if state == 0 {
        return query;
    }
    0
}

// The query of the comprehension w, or 0: where w is none, after a fault, and where the query has a schedule.
pub fn pending(p: Progress, w: Row, work: &[u64]) -> usize
    requires { (answers_size p.width ≤ length work.now) × QueryIn w }
    ensures { result ≡ pending_at p w work.now }
{
    if is_compr(w) {
        if p.is_sound() {
            let query = w.third as usize;
            let width = p.width;
            return unscheduled(work, query, width);
        }
    }
    0
}
