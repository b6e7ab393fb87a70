// The row that a field names, and its mark after that.

ghost use Rattle.std.specs.Prelude.{◌≡◌, ◌≤◌, ◌<◌, length};
ghost use Rattle.base.specs.Inner.Sizes as sizes;
ghost use Rattle.sheet.specs.Inner.Records.{Within};
ghost use Rattle.sheet.specs.Naming.{row_in, target, upwards};
ghost use Rattle.sheet_marks.specs.Inner.Marks.{name_work};

use crate::mark::Mark;
use crate::{EXPR_ROW, STATEMENT_ROW};
use sheet::{Counts, Field, Section};
use sheet_fields::limit;

// Row n of a section, or 0: a name is no row that is named.
fn row_in(section: Option<Section>, n: usize) -> usize
    requires { n < 1000000 }
    ensures { result ≡ row_in section n }
{
    match section {
        Some(Section::Expression) => EXPR_ROW + n,
        Some(Section::Statement) => STATEMENT_ROW + n,
        Some(Section::Query) => n,
        Some(Section::Name) | None => 0,
    }
}

// The row that a field names, or 0, which the marks keep too: an Option would be turned back into 0 at each call.
#[tactic(auto, unfolding(sheet::specs::Naming::target))]
pub(crate) fn named_by(counts: Counts, field: &Field, value: u16) -> usize
    ensures { result ≡ target counts field.now value }
{
    let value = value as usize;
    if value == 0 || limit(&counts, field.section) < value {
        return 0;
    }
    row_in(field.section, value)
}

// By a smaller row, or a query.
fn is_upwards(by: usize, to: usize) -> bool
    ensures { result ≡ upwards by to }
{
    to <= STATEMENT_ROW || by < to
}

// What a field of row `by` names, which by that lies at `place`.
#[tactic(auto, unfolding(crate::specs::Inner::Marks::name_work))]
pub(crate) fn name(
    work: &mut [u64],
    counts: Counts,
    by: usize,
    field: &Field,
    value: u16,
    place: usize,
)
    requires { (sizes.per_row ≤ length work.old) × (place ≤ sizes.named_rows) × Within counts }
    ensures { work.new ≡ name_work counts by (record { field = field.now; value = value; place = place }) work.old }
{
    let to = named_by(counts, field, value);
    if to == 0 {
        return;
    }
    let up = is_upwards(by, to);
    let mark = Mark::from(work[to]).after(up, field.chain, place);
    work[to] = mark.into();
}
