// What listed comprehensions use of the query around them.

ghost use Rattle.std.specs.Prelude.{length};
ghost use Rattle.answer_blocks.specs.Inner.Asks.{AsksBlock};
ghost use Rattle.definition_comprs.specs.Inner.Lists.{listed_at};
ghost use Rattle.definition_comprs.specs.Inner.Used.{AsksListed, ComprStep, ComprsUsed};

use crate::own::own_inputs;
use crate::taken::taken_by;
use names::Names;
use names_width::Width;
use scope_state::Scope;
use sheet::Row;
use sheet_rows::row_at;

// A comprehension: the own names among the inputs of its query come to `names`.
fn compr_step(scope: Scope, work: &[u64], w: Row, names: Names, width: Width) -> Names
    requires { AsksBlock width work.now w.third }
    ensures { ComprStep width scope work.now w names result }
{
    let query = w.third as usize;
    let taken = taken_by(work, query, width);
    let inputs = taken.inputs;
    let own = own_inputs(scope, inputs);
    names.union(own)
}

// Those at listed rows.
pub fn comprs_used(
    tables: &[u16],
    scope: Scope,
    work: &[u64],
    rows: &[u16],
    names: Names,
    width: Width,
) -> Names
    requires { AsksListed tables.now width rows.now work.now }
    ensures { ComprsUsed width scope work.now (listed_at tables.now rows.now 0 (length rows.now)) names result }
{
    let mut used = names;
    for row in rows {
        let w = row_at(tables, *row as usize);
        used = compr_step(scope, work, w, used, width);
    }
    used
}
