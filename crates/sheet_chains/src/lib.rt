// What is asked of the members of a chain: a row, then the row that its `next` names, as long as that is a later one. What the chain from
// each row on comes to is kept as one number in lent memory, behind the marks, so that no chain is walked.

#![tactic(auto)]

mod chain;

ghost use Rattle.std.specs.Prelude.{◌≡◌, ◌≤◌, length};
ghost use Rattle.base.specs.Limits as limits;
ghost use Rattle.base.specs.Inner.Sizes as sizes;
ghost use Rattle.sheet.specs.Kinds as kinds;
ghost use Rattle.sheet.specs.Inner.Records.{Within};
ghost use Rattle.sheet.specs.Nesting.{is_var_at, all_vars, ends_odd};
ghost use Rattle.sheet_chains.specs.Inner.Asks.{AsksNumber, AsksChain};
ghost use Rattle.sheet_chains.specs.Inner.Numbers.{rest_by, chain_by, Followed};
ghost use Rattle.sheet.specs.Inner.Rows.{in_tables};

use crate::chain::Chain;
use sheet::{Counts, Kind, Row};
use sheet_marks::ROWS;
use sheet_rows::row_at;

// Where row 0's number would stand.
const CHAIN_ROW: usize = ROWS;

// ---- Vars

fn is_var_row(x: &Row) -> bool
    ensures { result ≡ kinds.is_var x.now }
{
    matches!(Kind::from(x.kind), Kind::Var)
}

// Is expression `row` a Var?
pub fn is_var(tables: &[u16], counts: Counts, row: usize) -> bool
    requires { (limits.table_entries ≤ length tables.now) × (row ≤ limits.most_expressions) }
    ensures { result ≡ is_var_at counts (in_tables tables.now) row }
{
    is_var_row(&row_at(tables, row))
}

// ---- what a chain comes to

// What comes after `row`, whose `next` is this.
#[tactic(auto, unfolding(crate::specs::Inner::Numbers::rest_by))]
fn rest_after(work: &[u64], counts: Counts, row: usize, next: usize) -> Chain
    requires { (sizes.per_chain ≤ length work.now) × Within counts }
    ensures { result ≡ rest_by counts work.now row next }
{
    if next == 0 {
        Chain::NO_MEMBER
    } else if next <= row || counts.exprs < next {
        Chain::NO_END
    } else {
        Chain::from(work[CHAIN_ROW + next])
    }
}

// What the chain from `row` on comes to, by the numbers of later rows.
#[tactic(auto, unfolding(crate::specs::Inner::Numbers::chain_by))]
fn chain_from(work: &[u64], tables: &[u16], counts: Counts, row: usize) -> Chain
    requires { AsksNumber counts work.now tables.now row }
    ensures { result ≡ chain_by counts tables.now work.now row }
{
    let x = row_at(tables, row);
    let rest = rest_after(work, counts, row, x.next as usize);
    rest.after(is_var_row(&x))
}

// The numbers of all rows, the last row's first. The marks stay.
pub fn follow_all(work: &mut [u64], tables: &[u16], counts: Counts)
    requires { (sizes.per_chain ≤ length work.old) × (limits.table_entries ≤ length tables.now) × Within counts }
    ensures { Followed counts tables.now work.old work.new }
{
    for row in (1..=counts.exprs).rev() {
        work[CHAIN_ROW + row] = chain_from(work, tables, counts, row).into();
    }
}

// ---- what is asked

// Is each member of the chain from `row` on a Var?
pub fn all_vars(work: &[u64], tables: &[u16], counts: Counts, row: usize) -> bool
    requires { AsksChain counts work.now tables.now row }
    ensures { result ≡ all_vars counts (in_tables tables.now) row }
{
    chain_from(work, tables, counts, row).vars
}

// Does the chain from `row` on end, after an odd number of members?
pub fn ends_odd(work: &[u64], tables: &[u16], counts: Counts, row: usize) -> bool
    requires { AsksChain counts work.now tables.now row }
    ensures { result ≡ ends_odd counts (in_tables tables.now) row }
{
    chain_from(work, tables, counts, row).odd
}
