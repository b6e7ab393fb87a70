// The scheduler's call over lent numbers.

#![tactic(auto)]

ghost use Rattle.std.specs.Prelude.{◌≡◌, true, [], ℕ, ◌<◌, length, get_or};
ghost use Rattle.base.specs.Limits as limit;
ghost use Rattle.base.specs.Lists.{elem};
ghost use Rattle.order.specs.Inner.Orders.{placed_order};
ghost use Rattle.names_width.specs.Widths.{limits};
ghost use Rattle.order.specs.Call.{schedule_number};
ghost use Rattle.order_rows.specs.Inner.Rows.{definitions_of};
ghost use Rattle.order_bounds.specs.Inner.Answers.{AcceptedList};
ghost use Rattle.order_place.specs.Inner.State.{After};
ghost use Rattle.order_schedule.specs.Inner.Call.{Arranged, Scheduled, MarkedBy};

use base::{DEFINITIONS, STATEMENTS};
use names::{CAPACITY, Statements};
use order::{Refused, ScheduleOutcome};
use order_place::{Indexed, State, place_in};
use order_rows::{Links, Rows, link, mask};

// Indexes the rows of a list in bounds, and places what can be placed.
fn place_rows(rows: Rows<'_>, n: usize, state: &mut State)
    requires accepted_list { AcceptedList (limits rows.width) rows.words.now n n n }
    requires starts { After (definitions_of rows) n [] state.old }
    ensures { After (definitions_of rows.entry) n (placed_order (definitions_of rows.entry) n limit.per_name) state.new }
{
    let mut links = Links {
        first: [0; STATEMENTS],
        next: [0; DEFINITIONS],
    };
    link(rows, &mut links);
    let mut masks = [Statements::empty(); CAPACITY];
    let defined = mask(rows, &mut masks);
    let list = Indexed {
        rows,
        n,
        links: &links,
        masks: &masks,
        defined,
    };
    place_in(&list, state);
}

// A mark for each statement of an order, in zeros.
fn mark(placed: &[u16], reached: &mut [u16])
    requires low { (i : ℕ) → elem i placed.now ≡ true → i < length reached.old }
    requires zeros { (i : ℕ) → get_or reached.old i 0 ≡ 0 }
    ensures { MarkedBy placed.now reached.old reached.new }
{
    for at in 0..placed.len() {
        reached[placed[at] as usize] = 1;
    }
}

// A list in bounds: the turn rule; where not all are placed, the written order. Are all placed?
pub fn arrange_rows(rows: Rows<'_>, n: usize, order: &mut [u16], reached: &mut [u16]) -> bool
    requires accepted_list { AcceptedList (limits rows.width) rows.words.now n (length order.old) (length reached.old) }
    ensures { Arranged (limits rows.entry.width) rows.entry.words.now n (length order.old) (length reached.old) result order.new reached.new }
{
    let mut state = State::start();
    place_rows(rows, n, &mut state);
    reached.fill(0);
    mark(&state.order[..state.count], reached);
    order[n..].fill(0);
    if state.count == n {
        order[..n].copy_from_slice(&state.order[..n]);
        return true;
    }
    buffers::count_up(order, n);
    false
}

// The call: its question, then the list is arranged.
pub fn schedule(rows: Rows<'_>, n: usize, order: &mut [u16], reached: &mut [u16]) -> ScheduleOutcome
    ensures { Scheduled (limits rows.entry.width) rows.entry.words.now n (length order.old) (length reached.old) result order.new reached.new }
{
    if !order_bounds::admits(rows, n, order.len(), reached.len()) {
        order.fill(0);
        reached.fill(0);
        return Err(Refused::BadList);
    }
    Ok(arrange_rows(rows, n, order, reached))
}

// The number that an outcome is returned as.
pub fn number_of(outcome: ScheduleOutcome) -> u64
    ensures { result ≡ schedule_number outcome }
{
    match outcome {
        Err(Refused::BadList) => 0x8_0000_0000,
        Ok(all) => all as u64,
    }
}
