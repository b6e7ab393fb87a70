// The names of a query among those that another takes from around it.

ghost use Rattle.definition_comprs.specs.Inner.OwnInputs.{OwnInputs};

use names::Names;
use scope_state::Scope;

// Those of `inputs` that are locals or unscoped names of the scope.
pub fn own_inputs(scope: Scope, inputs: Names) -> Names
    ensures { OwnInputs scope inputs result }
{
    let locals = scope.locals;
    let unscoped = scope.unscoped;
    let not_local = inputs.difference(locals);
    let others = not_local.difference(unscoped);
    inputs.difference(others)
}
