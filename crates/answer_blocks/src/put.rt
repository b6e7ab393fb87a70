// Parts of a block are put.

ghost use Rattle.std.specs.Prelude.{◌≡◌, ◌+◌, ◌-◌, ◌*◌, ◌≤◌, length};
ghost use Rattle.names_width.specs.Inner.Widths.{set_words, Put};
ghost use Rattle.answer_blocks.specs.Inner.Asks.{AsksBlock};
ghost use Rattle.answer_blocks.specs.Inner.Layout.{block_size, both, SpansPut};
ghost use Rattle.answer_blocks.specs.Inner.States.{set_index};

use crate::state::QuerySet;
use crate::{HALF, place_of, set_place};
use names::Names;
use names_width::{Width, store_set};

// Puts a set of query q, as many of its words as the width has.
pub fn put_set(width: Width, work: &mut [u64], q: usize, set: QuerySet, names: Names)
    requires { AsksBlock width work.old q }
    ensures { Put (set_words width) work.old (block_size width * (q - 1) + (4 + set_words width * set_index set)) names.words work.new }
{
    store_set(width, work, set_place(width, q, set), names);
}

// Two positions in a word. The room of the work memory holds them only so.
fn both_of(lower: u32, upper: u32) -> u64
    ensures { result ≡ both lower upper }
{
    u64::from(lower) + HALF * u64::from(upper)
}

// Puts the positions of query q's locals, `spans` having one for each name.
pub fn put_spans(width: Width, work: &mut [u64], q: usize, spans: &[u32])
    requires { AsksBlock width work.old q × (64 * set_words width ≤ length spans.now) }
    ensures { SpansPut width work.old q spans.now work.new }
{
    let first = place_of(width, q, 4 + 3 * width.words());
    let count = 32 * width.words();
    for i in 0..count {
        work[first + i] = both_of(spans[2 * i], spans[2 * i + 1]);
    }
}
