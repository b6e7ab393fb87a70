// A sheet's rows with what is noted of them in lent memory.

ghost use Rattle.std.specs.Prelude.{◌≡◌, ◌≤◌, length};
ghost use Rattle.base.specs.Limits as limits;
ghost use Rattle.base.specs.Inner.Sizes as sizes;
ghost use Rattle.sheet.specs.Inner.Records.{Within};
ghost use Rattle.sheet_faults.specs.Inner.Known.{Known};

use sheet::Counts;
use sheet_chains::follow_all;
use sheet_marks::mark_all;

// The memory holds the marks of the rows, and what their chains come to.
#[derive(Clone, Copy)]
pub(crate) struct Noted<'a> {
    pub(crate) tables: &'a [u16],
    pub(crate) counts: Counts,
    pub(crate) work: &'a [u64],
    ghost known: { Known counts tables.now work.now },
}

impl Noted<'_> {
    pub(crate) fn new<'a>(tables: &'a [u16], counts: Counts, work: &'a mut [u64]) -> Noted<'a>
        requires { (limits.table_entries ≤ length tables.now) × (sizes.least_work ≤ length work.old) × Within counts }
        ensures { (result.counts ≡ counts) × (result.tables.now ≡ tables.now) }
    {
        mark_all(work, tables, counts);
        follow_all(work, tables, counts);
        Noted {
            tables,
            counts,
            work,
        }
    }
}
