// A scope by value, where its locals stand, the special names, and the scopes around a nested query.

#![tactic(auto)]

pub mod enclose;
pub mod outer;
pub mod spans;
pub mod special;

ghost use Rattle.std.specs.Prelude.{◌<◌, ◌≡◌};
ghost use Rattle.base.specs.Limits as limits;
ghost use Rattle.scope_state.specs.Inner.Agrees.{Sets, NoNames, WithLocal, WithUnscoped, WithInput, WithFlag, WithoutLocals, Opened, with_inputs_of};

use names::Names;

#[derive(Clone, Copy)]
pub struct Scope {
    pub locals: Names,
    pub unscoped: Names,
    pub inputs: Names,
    pub uses: bool,
}

impl Scope {
    pub fn empty() -> Scope
        ensures { NoNames result }
    {
        let none = Names::empty();
        Scope {
            locals: none,
            unscoped: none,
            inputs: none,
            uses: false,
        }
    }

    pub fn add_local(self, name: usize) -> Scope
        requires { name < limits.per_name }
        ensures { WithLocal self name result }
    {
        let locals = self.locals.insert(name);
        Scope { locals, ..self }
    }

    pub fn add_unscoped(self, name: usize) -> Scope
        requires { name < limits.per_name }
        ensures { WithUnscoped self name result }
    {
        let unscoped = self.unscoped.insert(name);
        Scope { unscoped, ..self }
    }

    pub fn add_input(self, name: usize) -> Scope
        requires { name < limits.per_name }
        ensures { WithInput self name result }
    {
        let inputs = self.inputs.insert(name);
        Scope { inputs, ..self }
    }

    // The flag is set, if `set`.
    pub fn use_input(self, set: bool) -> Scope
        ensures { WithFlag self set result }
    {
        let uses = set || self.uses;
        Scope { uses, ..self }
    }

    // The locals leave inputs and unscoped.
    pub fn remove_shadowed(self) -> Scope
        ensures { WithoutLocals self result }
    {
        let unscoped = self.unscoped.difference(self.locals);
        let inputs = self.inputs.difference(self.locals);
        Scope {
            unscoped,
            inputs,
            ..self
        }
    }

    // Each local is unscoped too: it is seen at every line.
    pub fn opened(self) -> Scope
        ensures { Opened self result }
    {
        let unscoped = self.locals.union(self.unscoped);
        Scope { unscoped, ..self }
    }

    // The same locals and unscoped names, with the inputs and the flag of `other`.
    pub fn with_inputs_of(self, other: Scope) -> Scope
        ensures { result ≡ with_inputs_of self other }
    {
        Scope {
            inputs: other.inputs,
            uses: other.uses,
            ..self
        }
    }
}
