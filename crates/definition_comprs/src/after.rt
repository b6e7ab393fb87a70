// What the query of a comprehension takes rises to the query around it (`propagate_nested_scope`), where it is used.

ghost use Rattle.std.specs.Prelude.{◌≤◌, length};
ghost use Rattle.base.specs.Limits as limits;
ghost use Rattle.answer_blocks.specs.Inner.Layout.{answers_size};
ghost use Rattle.answer_blocks.specs.Inner.Asks.{AsksBlock};
ghost use Rattle.definition_comprs.specs.Inner.Queries.{QueryIn};
ghost use Rattle.definition_comprs.specs.Inner.Propagated.{Propagated};
ghost use Rattle.definition_comprs.specs.Inner.Uses.{UsesNames};
ghost use Rattle.definition_comprs.specs.Inner.Rising.{Risen};
ghost use Rattle.definition_comprs.specs.Inner.After.{AfterCompr};

use crate::own::own_inputs;
use crate::taken::taken_by;
use definition_state::{Fault, Progress};
use definition_walk::first::add_first_use;
use definition_walk::row::is_compr;
use names::Names;
use scope_state::Scope;
use sheet::Row;

// The flag is set, if `uses`, and the names come to the inputs.
fn propagate(scope: Scope, uses: bool, names: Names) -> Scope
    ensures { Propagated scope uses names result }
{
    let flagged = scope.use_input(uses);
    let inputs = flagged.inputs.union(names);
    Scope { inputs, ..flagged }
}

// Each of the names is used where w stands.
fn use_names(w: Row, names: Names, firsts: &mut [u64])
    requires { limits.per_name ≤ length firsts.old }
    ensures { UsesNames w names firsts.old firsts.new }
{
    for x in names.members() {
        let v = Row {
            name: x as u16,
            ..w
        };
        add_first_use(v, firsts);
    }
}

// The comprehension w, whose query is analysed without a fault. Of its inputs those that are own names are used, and the others are inputs again.
fn rise(w: Row, p: Progress, firsts: &mut [u64], work: &[u64]) -> Progress
    requires { (limits.per_name ≤ length firsts.old) × AsksBlock p.width work.now w.third }
    ensures { Risen w work.now p firsts.old result firsts.new }
{
    let query = w.third as usize;
    let width = p.width;
    let taken = taken_by(work, query, width);
    let inputs = taken.inputs;
    let scope = p.scope;
    let own = own_inputs(scope, inputs);
    let others = inputs.difference(own);
    let wider = propagate(scope, taken.uses, others);
    use_names(w, own, firsts);
    p.with_scope(wider)
}

// After the query of w was analysed, to this fault or to none, if w is a comprehension and p has none.
pub fn after_compr(
    w: Row,
    p: Progress,
    fault: Option<Fault>,
    firsts: &mut [u64],
    work: &[u64],
) -> Progress
    requires { (limits.per_name ≤ length firsts.old) × (answers_size p.width ≤ length work.now) × QueryIn w }
    ensures { AfterCompr w work.now p fault firsts.old result firsts.new }
{
    if is_compr(w) {
        if p.is_sound() {
            let analysed = p.with_fault(fault);
            if fault.is_none() {
                return rise(w, analysed, firsts, work);
            }
            return analysed;
        }
    }
    p
}
