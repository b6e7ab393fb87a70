// Where locals stand: a word for each name, its line above its column.

ghost use Rattle.std.specs.Prelude.{◌≡◌, ◌≤◌, ◌<◌, length, set};
ghost use Rattle.base.specs.Limits as limits;
ghost use Rattle.scope_state.specs.Inner.Spans.{span_word};

use sheet::Row;

// A place is the word line * LINE + column.
pub const LINE: u32 = 65536;

pub fn put_span(spans: &mut [u32], w: Row)
    requires { (limits.per_name ≤ length spans.old) × (w.name < limits.per_name) }
    ensures { spans.new ≡ set spans.old w.name (span_word w) }
{
    let name = w.name as usize;
    spans[name] = w.line as u32 * LINE + w.col as u32;
}
