// How many statements a query has.

ghost use Rattle.std.specs.Prelude.{◌≡◌, ◌+◌, ◌≤◌};
ghost use Rattle.base.specs.Limits as limits;
ghost use Rattle.scope_walk.specs.Inner.Sheets.{Accepted, query_count, statement_count};
ghost use Rattle.definition_state.specs.Inner.Table.{count_at};
ghost use Rattle.answer_schedule.specs.Inner.Counts.{count_from};

use sheet_rows::{first_at, statement_at};

// Those from a row on, after `seen` others.
fn count_from(tables: &[u16], row: usize, seen: usize) -> usize
    requires { Accepted tables.now × (row ≤ statement_count tables.now) × (seen + count_from tables.now row ≤ limits.most_statements) }
    ensures { result ≡ seen + count_from tables.now row }
{
    if row == 0 {
        return seen;
    }
    let st = statement_at(tables, row);
    count_from(tables, st.next as usize, seen + 1)
}

pub(crate) fn count_stmts(tables: &[u16], query: usize) -> usize
    requires { Accepted tables.now × (1 ≤ query) × (query ≤ query_count tables.now) }
    ensures { result ≡ count_at tables.now query }
{
    let row = first_at(tables, query) as usize;
    count_from(tables, row, 0)
}
