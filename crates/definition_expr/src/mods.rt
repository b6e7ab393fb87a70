// The modifiers of a statement: the expressions of a chain, each alone.

ghost use Rattle.definition_room.specs.Inner.Sizes.{total};
ghost use Rattle.definition_room.specs.Inner.Leaves.{bracket_vars};
ghost use Rattle.scope_state.specs.Inner.Chains.{chain_at};
ghost use Rattle.definition_expr.specs.Inner.Asks.{AsksUse};
ghost use Rattle.definition_expr.specs.Inner.UsesMods.{UsesMods};

use crate::Using;
use crate::vars::use_vars;
use definition_state::Progress;
use names::Names;
use sheet_rows::next_at;

// The names that they use come to `names`.
pub fn use_mods(
    tables: &[u16],
    statement: usize,
    row: usize,
    p: Progress,
    names: Names,
    firsts: &mut [u64],
    work: &mut [u64],
) -> Using
    requires { AsksUse tables.now row p firsts.old work.old (total bracket_vars (chain_at tables.now row)) }
    ensures { UsesMods tables.now statement row p names firsts.old work.old result firsts.new work.new }
{
    if row == 0 {
        return Using {
            progress: p,
            names,
            comprs: 0,
        };
    }
    let next = next_at(tables, row);
    let none = Names::empty();
    let used = use_vars(tables, none, statement, row, false, p, firsts, work);
    let progress = used.progress;
    let all = names.union(used.names);
    let others = use_mods(tables, statement, next, progress, all, firsts, work);
    others.after(used.comprs, row)
}
