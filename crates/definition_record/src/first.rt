// `check_first_use`: was a name used before the variable that binds it?

ghost use Rattle.std.specs.Prelude.{◌≤◌, ◌<◌, length};
ghost use Rattle.base.specs.Limits as limits;
ghost use Rattle.definition_record.specs.Inner.FirstUse.{UseChecked};

use definition_state::{Fault, Progress};
use definition_walk::first::LINE;
use sheet::Row;

// A fault at the first use of the variable's name, where that stands before the variable. `firsts` has a word a name: 1 + line * LINE + column,
// and 0 for no use.
pub fn check_first_use(w: Row, p: Progress, firsts: &[u64]) -> Progress
    requires { (w.name < limits.per_name) × (limits.per_name ≤ length firsts.now) }
    ensures { UseChecked w p firsts.now result }
{
    if p.is_sound() {
        let name = w.name as usize;
        let word = firsts[name];
        if word == 0 {
            return p;
        }
        let place = word - 1;
        if place < w.line as u64 * LINE + w.col as u64 {
            let line = (place / LINE) as u16;
            let col = (place % LINE) as u16;
            return p.fail(Fault::UsedBefore(line, col));
        }
        return p;
    }
    p
}
