// Where each name was used first.

ghost use Rattle.std.specs.Prelude.{◌≤◌, ◌<◌, length};
ghost use Rattle.base.specs.Limits as limits;
ghost use Rattle.definition_walk.specs.Inner.Firsts.{FirstUse};

use sheet::Row;

// A first use is the word 1 + line * LINE + column, and none is 0.
pub const LINE: u64 = 65536;

// A use of a name. The first one stays.
pub fn add_first_use(w: Row, firsts: &mut [u64])
    requires { (limits.per_name ≤ length firsts.old) × (w.name < limits.per_name) }
    ensures { FirstUse w firsts.old firsts.new }
{
    let name = w.name as usize;
    if firsts[name] != 0 {
        return;
    }
    firsts[name] = 1 + w.line as u64 * LINE + w.col as u64;
}
