// The places of a query, behind the blocks: twice the statement's index, and 1 more where it was reached.

ghost use Rattle.std.specs.Prelude.{◌≡◌, ◌+◌, ◌*◌, ◌≤◌, length};
ghost use Rattle.answer_blocks.specs.Inner.Layout as layout;
ghost use Rattle.answer_store.specs.Inner.Asks.{AsksPlaces};
ghost use Rattle.answer_store.specs.Inner.Writes.{Written};
ghost use Rattle.answer_store.specs.Inner.Words.{place_word};

use answer_blocks::places_of;
use names_width::Width;

fn place_word(index: u16, reached: u16) -> u64
    ensures { result ≡ 2 * index + reached }
{
    2 * u64::from(index) + u64::from(reached)
}

pub fn store_places(
    answers: &mut [u64],
    base: usize,
    count: usize,
    order: &[u16],
    reached: &[u16],
    width: Width,
)
    requires { (layout.answers_size width ≤ length answers.old) × AsksPlaces base count order.now reached.now }
    ensures { Written answers.old answers.new (layout.places width + base) count (place_word order.now reached.now) }
{
    let first = places_of(width) + base;
    for (k, index) in order[..count].iter().enumerate() {
        answers[first + k] = place_word(*index, reached[usize::from(*index)]);
    }
}
