// What the fields of each row name.

ghost use Rattle.std.specs.Prelude.{◌≡◌, [], ◌≤◌, length};
ghost use Rattle.base.specs.Limits as limits;
ghost use Rattle.base.specs.Inner.Sizes as sizes;
ghost use Rattle.sheet.specs.Inner.Records.{Within};
ghost use Rattle.sheet.specs.Naming.{query_row, statement_row, expr_row, place_of, next_field, query_entries, by_queries, by_statements, namings};
ghost use Rattle.sheet_marks.specs.Inner.Asks.{AsksQueryRow};
ghost use Rattle.sheet_marks.specs.Inner.Marks.{Marks, name_work, row_work};
ghost use Rattle.sheet_marks.specs.Inner.Rows.{part_of, parts_of, fields_of};
ghost use Rattle.sheet.specs.Inner.Rows.{in_tables};

use crate::mark::Mark;
use crate::named::{name, named_by};
use crate::{EXPR_ROW, ROWS, STATEMENT_ROW};
use sheet::{Counts, Field, Form, Kind, Row, Statement};
use sheet_fields::{ABSENT, CHAIN_OR_NONE, QUERY, STATEMENT_OR_NONE, of_form, of_kind};
use sheet_rows::{first_at, row_at, statement_at};

// ---- what a row names

fn name_query(work: &mut [u64], tables: &[u16], counts: Counts, row: usize)
    requires { AsksQueryRow counts work.old tables.now row }
    ensures { work.new ≡ row_work counts (query_row row) (query_entries counts (in_tables tables.now) row) work.old }
{
    let first = first_at(tables, row);
    name(work, counts, row, &STATEMENT_OR_NONE, first, row);
}

fn name_statement(work: &mut [u64], counts: Counts, row: usize, x: &Statement)
    requires { (sizes.per_row ≤ length work.old) × (row ≤ limits.most_statements) × Within counts }
    ensures { work.new ≡ row_work counts (statement_row row) (fields_of x.now row) work.old }
{
    let by = STATEMENT_ROW + row;
    let fields = of_form(Form::from(x.form));
    name(work, counts, by, &fields.query, x.query, by);
    name(work, counts, by, &fields.first, x.first, by);
    name(work, counts, by, &fields.second, x.second, by);
    name(work, counts, by, &fields.third, x.third, by);
    name(work, counts, by, &CHAIN_OR_NONE, x.with, by);
    name(work, counts, by, &STATEMENT_OR_NONE, x.next, by);
}

// Where a part of expression `row` lies: a comprehension's term in its query.
#[tactic(auto, unfolding(sheet::specs::Naming::place_of))]
fn place_of(counts: Counts, field: &Field, x: &Row, row: usize) -> usize
    requires { row ≤ limits.most_expressions }
    ensures { result ≡ place_of counts field.now x.now.third row }
{
    if field.term {
        named_by(counts, &QUERY, x.third)
    } else {
        EXPR_ROW + row
    }
}

fn name_part(work: &mut [u64], counts: Counts, row: usize, x: &Row, field: &Field, value: u16)
    requires { (sizes.per_row ≤ length work.old) × (row ≤ limits.most_expressions) × Within counts }
    ensures { work.new ≡ name_work counts (expr_row row) (part_of counts x.now row field.now value) work.old }
{
    if value == 0 {
        return;
    }
    let place = place_of(counts, field, x, row);
    name(work, counts, EXPR_ROW + row, field, value, place);
}

// What the `next` of a row holds: something if the row is a member of a chain.
pub fn next_field(member: bool) -> &'static Field
    ensures { result.now ≡ next_field member }
{
    if member { &CHAIN_OR_NONE } else { &ABSENT }
}

// A row's `name` is no row that it names.
fn name_expr(work: &mut [u64], counts: Counts, row: usize, member: bool, x: &Row)
    requires { (sizes.per_row ≤ length work.old) × (row ≤ limits.most_expressions) × Within counts }
    ensures { work.new ≡ row_work counts (expr_row row) (parts_of counts member x.now row) work.old }
{
    let fields = of_kind(Kind::from(x.kind));
    name_part(work, counts, row, x, &fields.first, x.first);
    name_part(work, counts, row, x, &fields.second, x.second);
    name_part(work, counts, row, x, &fields.third, x.third);
    name_part(work, counts, row, x, next_field(member), x.next);
}

// ---- what all rows name

// No row is named yet.
pub(crate) fn clear(work: &mut [u64])
    requires { sizes.per_row ≤ length work.old }
    ensures { Marks [] work.new }
{
    work[..ROWS].fill(0);
}

pub(crate) fn name_queries(work: &mut [u64], tables: &[u16], counts: Counts)
    requires { Marks [] work.old × (limits.table_entries ≤ length tables.now) × Within counts }
    ensures { Marks (by_queries counts (in_tables tables.now) counts.queries) work.new }
{
    for row in 1..=counts.queries {
        name_query(work, tables, counts, row);
    }
}

pub(crate) fn name_statements(work: &mut [u64], tables: &[u16], counts: Counts)
    requires { Marks (by_queries counts (in_tables tables.now) counts.queries) work.old × (limits.table_entries ≤ length tables.now) × Within counts }
    ensures { Marks (by_statements counts (in_tables tables.now) counts.statements) work.new }
{
    for row in 1..=counts.statements {
        let x = statement_at(tables, row);
        name_statement(work, counts, row, &x);
    }
}

pub(crate) fn name_exprs(work: &mut [u64], tables: &[u16], counts: Counts)
    requires { Marks (by_statements counts (in_tables tables.now) counts.statements) work.old × (limits.table_entries ≤ length tables.now) × Within counts }
    ensures { Marks (namings counts (in_tables tables.now)) work.new }
{
    for row in 1..=counts.exprs {
        let x = row_at(tables, row);
        let mark = Mark::from(work[EXPR_ROW + row]);
        name_expr(work, counts, row, mark.is_member(), &x);
    }
}
