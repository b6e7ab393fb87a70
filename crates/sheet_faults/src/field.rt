// Is a field at fault by the number that it holds?

ghost use Rattle.std.specs.Prelude.{◌≡◌, ◌≤◌};
ghost use Rattle.base.specs.Limits as limits;
ghost use Rattle.sheet.specs.Fields.{limit_of};
ghost use Rattle.sheet.specs.Nesting.{level};
ghost use Rattle.sheet.specs.Faults.{not_var, unpaired, misnested};
ghost use Rattle.sheet_faults.specs.Inner.Tests.{fault_in};
ghost use Rattle.sheet.specs.Inner.Rows.{in_tables};

use crate::noted::Noted;
use sheet::{Field, Section};
use sheet_chains::{all_vars, ends_odd, is_var};
use sheet_fields::limit;
use sheet_levels::level;
use sheet_marks::EXPR_ROW;

impl Noted<'_> {
    // Is the row, or a member of the chain, no Var though it should be one?
    fn not_var(&self, field: &Field, v: usize) -> bool
        requires { v ≤ limits.most_expressions }
        ensures { result ≡ not_var self.now.counts (in_tables self.now.tables.now) field.now v }
    {
        if !field.var {
            false
        } else if field.chain {
            !all_vars(self.work, self.tables, self.counts, v)
        } else {
            !is_var(self.tables, self.counts, v)
        }
    }

    // Does a chain of keys and values lack the last value?
    fn lacks_value(&self, field: &Field, v: usize) -> bool
        requires { v ≤ limits.most_expressions }
        ensures { result ≡ unpaired self.now.counts (in_tables self.now.tables.now) field.now v }
    {
        field.pairs && ends_odd(self.work, self.tables, self.counts, v)
    }

    // The level of query q, or 0 where no way leads up to row 1.
    fn level(&self, q: usize) -> usize
        requires { q ≤ limits.most_queries }
        ensures { result ≡ level self.now.counts (in_tables self.now.tables.now) q }
    {
        let last = EXPR_ROW + self.counts.exprs;
        level(self.work, last, self.counts.queries, q)
    }

    // Is query v, which the field nests in query q, not larger, or is query q as deep as a query may be?
    fn is_misnested(&self, field: &Field, v: usize, q: usize) -> bool
        requires { v ≤ limit_of self.now.counts field.now.section }
        ensures { result ≡ misnested self.now.counts (in_tables self.now.tables.now) field.now v q }
    {
        matches!(field.section, Some(Section::Query))
            && (v <= q || v == 1 || base::NESTING <= self.level(q))
    }

    // Is a field at fault, in a row that lies in query q?
    #[tactic(auto, unfolding(sheet::specs::Faults::field_fault))]
    pub(crate) fn field_fault(&self, q: usize, field: &Field, value: u16) -> bool
        ensures { result ≡ fault_in self.now.counts self.now.tables.now q field.now value }
    {
        let v = value as usize;
        if v == 0 {
            return field.set;
        }
        limit(&self.counts, field.section) < v
            || self.not_var(field, v)
            || self.lacks_value(field, v)
            || self.is_misnested(field, v, q)
    }
}
