// Is a built-in at fault?

ghost use Rattle.std.specs.Prelude.{◌≡◌, ◌≤◌, length};
ghost use Rattle.base.specs.Limits as limits;
ghost use Rattle.sheet.specs.Faults.{builtin_fault};
ghost use Rattle.sheet_faults.specs.Inner.Tests.{same_path_by, gap_by, beyond_by, path_by, builtin_by};
ghost use Rattle.sheet.specs.Inner.Rows.{in_tables};

use sheet::{Builtin, Counts};
use sheet_rows::builtin_at;

fn same_path(a: Builtin, b: Builtin) -> bool
    ensures { result ≡ same_path_by a b }
{
    a.first == b.first && a.second == b.second && a.third == b.third
}

// Has one of the first n built-ins the path?
fn path_before(tables: &[u16], n: usize, b: Builtin) -> bool
    requires { (limits.table_entries ≤ length tables.now) × (n ≤ limits.most_built_ins) }
    ensures { result ≡ path_by tables.now n b }
{
    for row in (1..=n).rev() {
        if same_path(builtin_at(tables, row), b) {
            return true;
        }
    }
    false
}

// No `first`, or a part after none.
fn has_gap(b: Builtin) -> bool
    ensures { result ≡ gap_by b }
{
    b.first == 0 || (b.second == 0 && b.third != 0)
}

fn is_beyond(counts: Counts, b: Builtin) -> bool
    ensures { result ≡ beyond_by counts b }
{
    counts.names < b.first as usize
        || counts.names < b.second as usize
        || counts.names < b.third as usize
}

// Is a built-in at fault that follows n others?
#[tactic(auto, unfolding(crate::specs::Inner::Tests::builtin_by))]
fn judge_builtin(tables: &[u16], counts: Counts, n: usize, b: Builtin) -> bool
    requires { (limits.table_entries ≤ length tables.now) × (n ≤ limits.most_built_ins) }
    ensures { result ≡ builtin_by counts tables.now n b }
{
    base::ARITY < b.arity || has_gap(b) || is_beyond(counts, b) || path_before(tables, n, b)
}

pub(crate) fn builtin_fault(tables: &[u16], counts: Counts, row: usize) -> bool
    requires { (limits.table_entries ≤ length tables.now) × (1 ≤ row) × (row ≤ limits.most_built_ins) }
    ensures { result ≡ builtin_fault counts (in_tables tables.now) row }
{
    let b = builtin_at(tables, row);
    judge_builtin(tables, counts, row - 1, b)
}
