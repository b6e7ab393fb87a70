// Where the places of each query begin. It is written before the analysis, since queries are not analysed in the order of their numbers.

ghost use Rattle.std.specs.Prelude.{[], ◌≤◌, length};
ghost use Rattle.base.specs.Limits as limits;
ghost use Rattle.names_width.specs.Inner.Widths.{names};
ghost use Rattle.answer_blocks.specs.Inner.Layout.{answers_size};
ghost use Rattle.scope_walk.specs.Inner.Sheets.{Accepted, name_count};
ghost use Rattle.definition_state.specs.Inner.Table.{Table};
ghost use Rattle.answer_schedule.specs.Inner.Bases.{FreshTo};

use crate::count::count_stmts;
use answer_blocks::state::State;
use answer_blocks::{BASE, STATE, answers_of, place_of};
use base::QUERIES;
use names_width::Width;

// No query is analysed yet, whatever stood in work.
fn clear_states(work: &mut [u64], width: Width)
    requires { answers_size width ≤ length work.old }
    ensures { FreshTo width work.new limits.most_queries }
{
    let first = work.len() - answers_of(width);
    for q in 1..=QUERIES {
        work[first + place_of(width, q, STATE)] = u64::from(State::Unanalysed);
    }
}

// Each query's places begin behind those of the queries before it.
pub fn set_bases(tables: &[u16], work: &mut [u64], width: Width)
    requires { Accepted tables.now × (name_count tables.now ≤ names width) × (answers_size width ≤ length work.old) }
    ensures { Table width tables.now work.new [] }
{
    clear_states(work, width);
    let first = work.len() - answers_of(width);
    let queries = tables[4] as usize;
    let mut base: usize = 0;
    for q in 1..=queries {
        work[first + place_of(width, q, BASE)] = base as u64;
        base += count_stmts(tables, q);
    }
}
