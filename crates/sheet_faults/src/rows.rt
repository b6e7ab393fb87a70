// Is an expression, a statement or a query at fault, by its mark and its fields?

ghost use Rattle.std.specs.Prelude.{◌≡◌, ◌≤◌};
ghost use Rattle.sheet.specs.Fields.{kind_of};
ghost use Rattle.sheet.specs.Inner.Kinds.{KindNumbered};
ghost use Rattle.sheet.specs.Faults.{expr_fault, statement_fault, query_fault};
ghost use Rattle.sheet_faults.specs.Inner.Tests.{parts_in, parts_by, expr_fields_by, statement_fields_by, expr_fault_by, statement_fault_by, query_fault_by};
ghost use Rattle.sheet.specs.Inner.Rows.{in_tables};

use crate::noted::Noted;
use sheet::{Form, FormFields, Kind, KindFields, Row, Statement};
use sheet_fields::{CHAIN_OR_NONE, STATEMENT_OR_NONE, of_form, of_kind};
use sheet_marks::{EXPR_ROW, Mark, STATEMENT_ROW, next_field};
use sheet_rows::{first_at, row_at, statement_at};

// ---- expressions

// Does the row have a part at all?
fn has_parts(x: &Row) -> bool
    ensures { result ≡ parts_in x.now }
{
    x.first != 0 || x.second != 0 || x.third != 0
}

impl Noted<'_> {
    // Most rows are leaves, for whose kind no parts are listed: any that they have are at fault.
    #[tactic(auto, unfolding(crate::specs::Inner::Tests::parts_by))]
    fn parts_fault(&self, q: usize, fields: &KindFields, x: &Row) -> bool
        requires { fields.now ≡ kind_of x.now.kind }
        ensures { result ≡ parts_by self.now.counts self.now.tables.now q fields.now x.now }
    {
        if fields.first.section.is_none() {
            return has_parts(x);
        }
        self.field_fault(q, &fields.first, x.first)
            || self.field_fault(q, &fields.second, x.second)
            || self.field_fault(q, &fields.third, x.third)
    }

    // By its fields, of an expression that lies in query q?
    #[tactic(auto, unfolding(crate::specs::Inner::Tests::expr_fields_by))]
    fn expr_fields_fault(&self, q: usize, member: bool, kind: Kind, x: &Row) -> bool
        requires { KindNumbered x.now.kind kind }
        ensures { result ≡ expr_fields_by self.now.counts self.now.tables.now q member x.now }
    {
        let fields = of_kind(kind);
        self.field_fault(q, &fields.name, x.name)
            || self.parts_fault(q, fields, x)
            || self.field_fault(q, next_field(member), x.next)
    }

    // Is an expression with such a mark at fault?
    #[tactic(auto, unfolding(crate::specs::Inner::Tests::expr_fault_by))]
    fn marked_expr_fault(&self, mark: Mark, x: &Row) -> bool
        ensures { result ≡ expr_fault_by self.now.counts self.now.tables.now mark.word x.now }
    {
        let kind = Kind::from(x.kind);
        !mark.is_named_so()
            || matches!(kind, Kind::Unknown)
            || self.expr_fields_fault(mark.place(), mark.is_member(), kind, x)
    }

    pub(crate) fn expr_fault(&self, row: usize) -> bool
        requires { (1 ≤ row) × (row ≤ self.now.counts.exprs) }
        ensures { result ≡ expr_fault self.now.counts (in_tables self.now.tables.now) row }
    {
        let mark = Mark::from(self.work[EXPR_ROW + row]);
        self.marked_expr_fault(mark, &row_at(self.tables, row))
    }
}

// ---- statements

impl Noted<'_> {
    // By its fields, of a statement that lies in query q?
    #[tactic(auto, unfolding(crate::specs::Inner::Tests::statement_fields_by))]
    fn statement_fields_fault(&self, q: usize, fields: &FormFields, x: &Statement) -> bool
        ensures { result ≡ statement_fields_by self.now.counts self.now.tables.now q fields.now x.now }
    {
        self.field_fault(q, &fields.query, x.query)
            || self.field_fault(q, &fields.first, x.first)
            || self.field_fault(q, &fields.second, x.second)
            || self.field_fault(q, &fields.third, x.third)
            || self.field_fault(q, &CHAIN_OR_NONE, x.with)
            || self.field_fault(q, &STATEMENT_OR_NONE, x.next)
    }

    // Is a statement with such a mark at fault?
    #[tactic(auto, unfolding(crate::specs::Inner::Tests::statement_fault_by))]
    fn marked_statement_fault(&self, mark: Mark, x: &Statement) -> bool
        ensures { result ≡ statement_fault_by self.now.counts self.now.tables.now mark.word x.now }
    {
        let form = Form::from(x.form);
        !mark.is_named_so()
            || matches!(form, Form::Unknown)
            || self.statement_fields_fault(mark.place(), of_form(form), x)
    }

    pub(crate) fn statement_fault(&self, row: usize) -> bool
        requires { (1 ≤ row) × (row ≤ self.now.counts.statements) }
        ensures { result ≡ statement_fault self.now.counts (in_tables self.now.tables.now) row }
    {
        let mark = Mark::from(self.work[STATEMENT_ROW + row]);
        self.marked_statement_fault(mark, &statement_at(self.tables, row))
    }
}

// ---- queries

impl Noted<'_> {
    // Is a query with such a mark at fault? Nothing names row 1.
    #[tactic(auto, unfolding(crate::specs::Inner::Tests::query_fault_by))]
    fn marked_query_fault(&self, mark: Mark, row: usize, first: u16) -> bool
        ensures { result ≡ query_fault_by self.now.counts self.now.tables.now mark.word row first }
    {
        (row != 1 && !mark.is_named_so()) || self.field_fault(row, &STATEMENT_OR_NONE, first)
    }

    pub(crate) fn query_fault(&self, row: usize) -> bool
        requires { row ≤ self.now.counts.queries }
        ensures { result ≡ query_fault self.now.counts (in_tables self.now.tables.now) row }
    {
        let mark = Mark::from(self.work[row]);
        self.marked_query_fault(mark, row, first_at(self.tables, row))
    }
}
