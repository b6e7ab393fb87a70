// Which rows of a sheet are at fault by what their fields hold and name, and the first line of such a row.

#![tactic(auto)]

mod builtins;
mod field;
mod noted;
mod rows;

ghost use Rattle.std.specs.Prelude.{◌≡◌, ◌≤◌, length, ℕ, Bool, unwrap_or, IfSome};
ghost use Rattle.base.specs.Limits as limits;
ghost use Rattle.base.specs.Inner.Sizes as sizes;
ghost use Rattle.sheet.specs.Inner.Records.{Within};
ghost use Rattle.sheet.specs.Faults.{first_line};
ghost use Rattle.sheet_faults.specs.Inner.Firsts.{CallableTo, Tells, FirstFound};
ghost use Rattle.sheet.specs.Inner.Rows.{in_tables};

use crate::builtins::builtin_fault;
use crate::noted::Noted;
use sheet::Counts;

// The first of the rows 1 to `last` that is at fault.
fn first_fault<F: Fn(usize) -> bool>(last: usize, is_at_fault: F) -> Option<usize>
    requires { CallableTo (F.pre is_at_fault) last }
    ensures { (fault : ℕ → Bool) → Tells (F.post is_at_fault) fault last → FirstFound fault last result }
{
    for row in 1..=last {
        if is_at_fault(row) {
            return Some(row);
        }
    }
    None
}

// The first line at fault, in the order of the sheet.
pub fn first_line(tables: &[u16], counts: Counts, work: &mut [u64]) -> Option<usize>
    requires { (limits.table_entries ≤ length tables.now) × (sizes.least_work ≤ length work.old) × Within counts }
    ensures { (unwrap_or result 0 ≡ first_line counts (in_tables tables.now)) × IfSome result (λ line. 1 ≤ line) }
{
    let above = counts.names + 3;
    if let Some(row) = first_fault(counts.builtins, |row| builtin_fault(tables, counts, row)) {
        return Some(above + row);
    }
    let noted = Noted::new(tables, counts, work);
    let above = above + counts.builtins + 2;
    if let Some(row) = first_fault(counts.exprs, |row| noted.expr_fault(row)) {
        return Some(above + row);
    }
    let above = above + counts.exprs + 2;
    if let Some(row) = first_fault(counts.statements, |row| noted.statement_fault(row)) {
        return Some(above + row);
    }
    let above = above + counts.statements + 2;
    if let Some(row) = first_fault(counts.queries, |row| noted.query_fault(row)) {
        return Some(above + row);
    }
    None
}
