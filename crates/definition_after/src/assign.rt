// One direction of an assignment, once what stands on the other side is used.

ghost use Rattle.std.specs.Prelude.{false, ◌≤◌, max, length};
ghost use Rattle.base.specs.Limits as limits;
ghost use Rattle.definition_room.specs.Inner.Leaves.{pattern_vars};
ghost use Rattle.scope_walk.specs.Inner.Sheets.{Accepted, expr_count};
ghost use Rattle.scope_walk.specs.Inner.Exprs.{expr_by};
ghost use Rattle.definition_expr.specs.Inner.Asks.{AsksUse};
ghost use Rattle.definition_cycle.specs.Inner.OneWay.{CheckedAssigned, Assigns};

use definition_expr::Using;
use definition_record::checks::check_assigned;
use definition_record::record::record_each;
use definition_state::Progress;
use definition_walk::assigned::assigned_vars;
use names::Names;

// The first uses of the target's names are looked at, if `check`; then each name that it assigns is defined from the names used, less
// itself.
pub fn assign(
    tables: &[u16],
    row: usize,
    check: bool,
    statement: usize,
    u: Using,
    firsts: &[u64],
    work: &mut [u64],
) -> Progress
    requires { AsksUse tables.now row u.progress firsts.now work.old (max 1 (pattern_vars (expr_by tables.now false row))) }
    ensures { Assigns tables.now (expr_by tables.now false row) check statement u firsts.now work.old result work.new }
{
    let names = u.names;
    let s = checked(tables, row, check, u.progress, firsts);
    let none = Names::empty();
    let vars = assigned_vars(tables, s.scope, row, false, none);
    record_each(statement, vars, names, true, s, work)
}

fn checked(tables: &[u16], row: usize, check: bool, p: Progress, firsts: &[u64]) -> Progress
    requires { Accepted tables.now × (row ≤ expr_count tables.now) × (limits.per_name ≤ length firsts.now) }
    ensures { CheckedAssigned tables.now row check p firsts.now result }
{
    if check {
        return check_assigned(tables, row, false, p, firsts);
    }
    p
}
