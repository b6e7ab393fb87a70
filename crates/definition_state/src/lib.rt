// What the analysis of one query has come to, as a value that each step takes and hands back. Its first uses, its definitions and the
// answers of the queries before it are kept beside it, in lent memory.

#![tactic(auto)]

ghost use Rattle.std.specs.Prelude.{◌≡◌};
ghost use Rattle.definition_state.specs.Inner.Faults.{is_sound};
ghost use Rattle.definition_state.specs.Inner.Frames.{with_fault, failed, scoped, with_count};

use names_width::Width;
use scope_state::Scope;

// An undefined variable, a use before its definition, arrays whose lengths differ, each with its line and column; an index variable inside a
// some-in pattern.
#[derive(Clone, Copy, Debug, PartialEq, Eq)]
pub enum Fault {
    Undefined(u16, u16),
    UsedBefore(u16, u16),
    Lengths(u16, u16),
    IndexVariable,
}

// The scope, how many rows of definitions there are, the first fault if there is one, and the width of sets in lent memory, which stays.
#[derive(Clone, Copy)]
pub struct Progress {
    pub scope: Scope,
    pub count: usize,
    pub fault: Option<Fault>,
    pub width: Width,
}

impl Progress {
    pub fn is_sound(self) -> bool
        ensures { result ≡ is_sound self.fault }
    {
        self.fault.is_none()
    }

    // `bail!`.
    pub fn fail(self, fault: Fault) -> Progress
        ensures { result ≡ failed self fault }
    {
        Progress {
            fault: Some(fault),
            ..self
        }
    }

    // With what a nested query came to.
    pub fn with_fault(self, fault: Option<Fault>) -> Progress
        ensures { result ≡ with_fault self fault }
    {
        Progress { fault, ..self }
    }

    // With another scope.
    pub fn with_scope(self, scope: Scope) -> Progress
        ensures { result ≡ scoped self scope }
    {
        Progress { scope, ..self }
    }

    // With as many definitions.
    pub fn with_count(self, count: usize) -> Progress
        ensures { result ≡ with_count self count }
    {
        Progress { count, ..self }
    }
}
