// The body of `every`, which is analysed unless there is a fault already.

ghost use Rattle.std.specs.Prelude.{◌≡◌, cond};
ghost use Rattle.definition_state.specs.Inner.Faults.{is_sound};
ghost use Rattle.definition_state.specs.Inner.Frames.{with_fault};

use definition_state::{Fault, Progress};

// The query, 0 after a fault.
pub fn body_of(p: Progress, query: usize) -> usize
    ensures { result ≡ cond (is_sound p.fault) query 0 }
{
    if p.is_sound() {
        return query;
    }
    0
}

// What the body came to, if there was no fault before.
pub fn after_body(p: Progress, fault: Option<Fault>) -> Progress
    ensures { result ≡ cond (is_sound p.fault) (with_fault p fault) p }
{
    if p.is_sound() {
        return p.with_fault(fault);
    }
    p
}
