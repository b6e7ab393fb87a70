// The turn rule: statements are placed, turn by turn.

#![tactic(auto)]

ghost use Rattle.std.specs.Prelude.{◌≡◌, ◌<◌, []};
ghost use Rattle.base.specs.Limits as limits;
ghost use Rattle.base.specs.Lists.{range};
ghost use Rattle.names.specs.Inner.Sets.{Empty};
ghost use Rattle.order.specs.Walk.{pick};
ghost use Rattle.order.specs.Definitions.{defines, ready};
ghost use Rattle.order.specs.Inner.Orders.{turn_order, followed_order, round_order, placed_order};
ghost use Rattle.order_rows.specs.Inner.Rows.{definitions_of};
ghost use Rattle.order_place.specs.Inner.State.{NextTry, order_of, HoldsPlaced, Waiting, After};

mod indexed;

use base::STATEMENTS;
pub use indexed::Indexed;
use names::{Names, Statements};

// What is placed so far. It is large: each step is lent it.
#[derive(Clone, Copy)]
pub struct State {
    // The statements placed.
    pub placed: Statements,
    // The same with those whose try failed since the last placing: a try of these would fail.
    pub idle: Statements,
    // The names that those placed define.
    pub known: Names,
    // Those placed, in their order: the first `count` entries.
    pub order: [u16; STATEMENTS],
    pub count: usize,
}

impl State {
    // Nothing is placed.
    pub fn start() -> Self
        ensures { (result.count ≡ 0) × Empty result.placed.words × Empty result.idle.words × Empty result.known.words }
    {
        State {
            placed: Statements::empty(),
            idle: Statements::empty(),
            known: Names::empty(),
            order: [0; STATEMENTS],
            count: 0,
        }
    }

    // A try of a statement: placed if its definitions resolve, else left idle until another is placed.
    fn attempt(&mut self, list: &Indexed<'_>, i: usize)
        requires waiting { Waiting (definitions_of list.now.rows) list.now.n self.old i }
        requires holds_placed { HoldsPlaced (definitions_of list.now.rows) list.now.n self.old }
        ensures { let defs = definitions_of list.now.rows in After defs list.now.n (pick (ready defs) (defines defs) list.now.n (order_of self.old) i) self.new }
    {
        if !order_resolve::try_statement(list.rows, list.links, i, &mut self.known) {
            self.idle = self.idle.insert(i);
            return;
        }
        self.order[self.count] = i as u16;
        self.count += 1;
        self.placed = self.placed.insert(i);
        self.idle = self.placed;
    }

    // The next statement of a set, from `from` up, that is worth a try.
    fn next_try(&self, own: Statements, from: usize) -> Option<usize>
        ensures { NextTry own.words self.now.idle.words from result }
    {
        let i = own.difference(self.idle).next(from);
        if i < STATEMENTS { Some(i) } else { None }
    }

    // The turn of a name: its unplaced statements are tried, lowest index first.
    fn take_turn(&mut self, list: &Indexed<'_>, name: usize)
        requires named { name < limits.per_name }
        requires holds_placed { HoldsPlaced (definitions_of list.now.rows) list.now.n self.old }
        ensures { let defs = definitions_of list.now.rows in After defs list.now.n (turn_order defs list.now.n name (order_of self.old)) self.new }
    {
        let own = list.masks[name];
        let mut from = 0;
        while let Some(i) = self.next_try(own, from) {
            self.attempt(list, i);
            from = i + 1;
        }
    }

    // A turn of the name, and one more of the empty name where it placed something.
    fn take_followed(&mut self, list: &Indexed<'_>, name: usize)
        requires named { name < limits.per_name }
        requires holds_placed { HoldsPlaced (definitions_of list.now.rows) list.now.n self.old }
        ensures { let defs = definitions_of list.now.rows in After defs list.now.n (followed_order defs list.now.n (order_of self.old) name) self.new }
    {
        // Most names have nothing to try, and a look costs less than a call.
        let Some(_) = self.next_try(list.masks[name], 0) else {
            return;
        };
        let before = self.count;
        self.take_turn(list, name);
        if self.count != before {
            self.take_turn(list, 0);
        }
    }

    // A round: the turn of each name that a statement defines, ascending.
    fn take_round(&mut self, list: &Indexed<'_>)
        requires holds_placed { HoldsPlaced (definitions_of list.now.rows) list.now.n self.old }
        ensures { let defs = definitions_of list.now.rows in After defs list.now.n (round_order defs list.now.n (range 0 limits.per_name) (order_of self.old)) self.new }
    {
        for name in list.defined.members() {
            self.take_followed(list, name);
        }
    }
}

// The turn rule, in a state where nothing is placed: the opening turn of the empty name, then rounds until one places nothing or all are placed.
pub fn place_in(list: &Indexed<'_>, state: &mut State)
    requires starts { After (definitions_of list.now.rows) list.now.n [] state.old }
    ensures { let defs = definitions_of list.now.rows in After defs list.now.n (placed_order defs list.now.n limits.per_name) state.new }
{
    state.take_turn(list, 0);
    while state.count < list.n {
        let before = state.count;
        state.take_round(list);
        if state.count == before {
            break;
        }
    }
}

// The turn rule in a state of its own.
pub fn place_all(list: &Indexed<'_>) -> State
    ensures { let defs = definitions_of list.now.rows in After defs list.now.n (placed_order defs list.now.n limits.per_name) result }
{
    let mut state = State::start();
    place_in(list, &mut state);
    state
}
