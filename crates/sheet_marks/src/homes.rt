// The query that encloses each row.

ghost use Rattle.std.specs.Prelude.{◌≡◌, ◌≤◌, ◌<◌, ◌^◌, length};
ghost use Rattle.base.specs.Inner.Sizes as sizes;
ghost use Rattle.sheet.specs.Inner.Records.{Within};
ghost use Rattle.sheet.specs.Naming.{expr_row, namings};
ghost use Rattle.sheet_marks.specs.Inner.Marks.{Marks};
ghost use Rattle.sheet_marks.specs.Inner.Homes.{SettledHomes, home_of, settle_next};
ghost use Rattle.sheet.specs.Inner.Rows.{in_tables};

use crate::mark::Mark;
use crate::{EXPR_ROW, STATEMENT_ROW};
use sheet::Counts;

// The query of row `place`, as the marks up to row `last` have it, or 0.
#[tactic(auto, unfolding(crate::specs::Inner::Homes::home_of))]
pub fn home(work: &[u64], last: usize, place: usize) -> usize
    requires { (sizes.per_row ≤ length work.now) × (last ≤ sizes.named_rows) }
    ensures { (result ≡ home_of last place work.now) × (result < 2 ^ 61) }
{
    if last < place {
        0
    } else if place <= STATEMENT_ROW {
        place
    } else {
        Mark::from(work[place]).place()
    }
}

// The row after `last`.
#[tactic(auto, unfolding(crate::specs::Inner::Homes::settle_next))]
fn settle_next(work: &mut [u64], last: usize)
    requires { (sizes.per_row ≤ length work.old) × (last < sizes.named_rows) }
    ensures { work.new ≡ settle_next last work.old }
{
    let mark = Mark::from(work[last + 1]);
    let query = home(work, last, mark.place());
    work[last + 1] = mark.settled_in(query).into();
}

// All rows. The queries keep their place.
pub(crate) fn settle(work: &mut [u64], tables: &[u16], counts: Counts)
    requires { Marks (namings counts (in_tables tables.now)) work.old × Within counts }
    ensures { SettledHomes (namings counts (in_tables tables.now)) (expr_row counts.exprs) work.new }
{
    for last in STATEMENT_ROW..EXPR_ROW + counts.exprs {
        settle_next(work, last);
    }
}
