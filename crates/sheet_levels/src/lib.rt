// The level of a query, from the marks: row 1 is level 1, and a nested query one deeper than the query that encloses it.

#![tactic(auto)]

ghost use Rattle.std.specs.Prelude.{◌≡◌, ◌≤◌, length};
ghost use Rattle.base.specs.Inner.Sizes as sizes;
ghost use Rattle.base.specs.Limits as limits;
ghost use Rattle.sheet_levels.specs.Inner.Levels.{parent_by, level_by};

use sheet_marks::{Mark, home};

// The query that encloses query q, or 0: row 0 is none, as in the marks, and no Option is needed to climb from it.
#[tactic(auto, unfolding(crate::specs::Inner::Levels::parent_by))]
fn parent(work: &[u64], last: usize, q: usize) -> usize
    requires { (sizes.per_row ≤ length work.now) × (last ≤ sizes.named_rows) }
    ensures { result ≡ parent_by last work.now q }
{
    if base::QUERIES < q {
        return 0;
    }
    let mark = Mark::from(work[q]);
    if mark.is_named_so() {
        home(work, last, mark.place())
    } else {
        0
    }
}

// The level of query q, or 0 where no way leads up to row 1. No way has more than n queries.
pub fn level(work: &[u64], last: usize, n: usize, q: usize) -> usize
    requires { (sizes.per_row ≤ length work.now) × (last ≤ sizes.named_rows) × (n ≤ limits.most_queries) }
    ensures { result ≡ level_by last work.now n q }
{
    let mut at = q;
    for steps in 0..n {
        if at == 1 {
            return steps + 1;
        }
        at = parent(work, last, at);
    }
    0
}
