// The scopes around the body of an `every`: those around the statement, and one that has its key and value as locals.

ghost use Rattle.std.specs.Prelude.{◌≡◌, List};
ghost use Rattle.scope_gather.specs.Inner.Bodies.{AsksEvery, EveryBody};

use crate::locals::add_locals;
use names::CAPACITY;
use scope_state::Scope;
use scope_state::enclose::enclose;

// Key and value are the chains at two rows; `inner` receives the scopes.
pub fn enclose_every(tables: &[u16], outer: &[u32], key: usize, value: usize, inner: &mut [u32])
    requires { AsksEvery tables.now outer.now key value inner.old }
    ensures { EveryBody tables.now outer.now key value inner.new }
{
    let mut spans: [u32; CAPACITY] = [0; CAPACITY];
    let none = Scope::empty();
    let mut s = add_locals(tables, key, none, &mut spans);
    s = add_locals(tables, value, s, &mut spans);
    enclose(outer, s, &spans, inner);
}
