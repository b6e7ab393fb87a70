// `analyze_query_snippet`: the analysis of a sheet, from its outer query on.

ghost use Rattle.std.specs.Prelude.{◌≤◌};
ghost use Rattle.scope_walk.specs.Inner.Sheets.{query_count};
ghost use Rattle.definition_cycle.specs.Inner.Asks.{AsksSheet};
ghost use Rattle.definition_cycle.specs.Inner.Analysed.{Analysed};

use crate::query::analyze_query;
use answer_schedule::bases::set_bases;
use definition_state::Fault;
use names::CAPACITY;
use names_width::Width;

// Past all lines: no name exists around the outer query.
const NEVER: u32 = 65536;

// How deep queries may nest.
const DEEPEST: usize = base::NESTING;

// The answers are left in the last words of work, as many as the width's answers have.
pub fn analyze_sheet(tables: &[u16], work: &mut [u64], width: Width) -> Option<Fault>
    requires { AsksSheet tables.now width work.old × (1 ≤ query_count tables.now) }
    ensures { Analysed width tables.now work.new result }
{
    set_bases(tables, work, width);
    let outer: [u32; CAPACITY] = [NEVER; CAPACITY];
    analyze_query(tables, &outer, 1, 0, 0, DEEPEST, work, width)
}
