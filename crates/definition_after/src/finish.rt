// The two ends of a query's analysis.

ghost use Rattle.std.specs.Prelude.{◌≡◌, true, ◌+◌, ◌*◌, ◌≤◌, length};
ghost use Rattle.names_width.specs.Inner.Widths.{row_words};
ghost use Rattle.answer_blocks.specs.Inner.Layout.{answers_size};
ghost use Rattle.definition_state.specs.Inner.Faults.{is_sound};
ghost use Rattle.definition_state.specs.Inner.Table.{answers_of, Based};
ghost use Rattle.answer_schedule.specs.Inner.Asks.{AsksConclude};
ghost use Rattle.answer_schedule.specs.Inner.Concluded.{Schedulable};
ghost use Rattle.definition_cycle.specs.Inner.Ends.{begin, OpenedFrom, Finished};

use answer_schedule::conclude;
use definition_state::{Fault, Progress};
use names_width::Width;
use scope_state::Scope;

// Nothing is recorded yet.
pub fn begun(scope: Scope, width: Width) -> Progress
    ensures { result ≡ begin scope width }
{
    Progress {
        scope,
        count: 0,
        fault: None,
        width,
    }
}

// Outputs see all names of the query, whatever their line: its locals count as unscoped.
pub fn opened(p: Progress) -> Progress
    ensures { OpenedFrom p result }
{
    let scope = p.scope;
    let open = scope.opened();
    p.with_scope(open)
}

// The query is scheduled and stored, unless there is a fault: `scope` with the inputs that rose to p.
pub fn finish(
    tables: &[u16],
    query: usize,
    scope: Scope,
    p: Progress,
    spans: &[u32],
    work: &mut [u64],
) -> Option<Fault>
    requires asks_finish { AsksConclude tables.now query spans.now × (row_words p.width * p.count + answers_size p.width ≤ length work.old) × (is_sound p.fault ≡ true → Based p.width tables.now (answers_of p.width work.old)) }
    requires schedulable { is_sound p.fault ≡ true → Schedulable p.width tables.now work.old query p.count }
    ensures { Finished tables.now work.old query scope p spans.now result work.new }
{
    if p.is_sound() {
        let whole = scope.with_inputs_of(p.scope);
        let width = p.width;
        conclude(tables, query, whole, spans, p.count, work, width);
    }
    p.fault
}
