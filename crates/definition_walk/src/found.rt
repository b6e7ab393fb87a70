// What a walk over an expression has found, as a value that each row takes and hands back.

ghost use Rattle.std.specs.Prelude.{◌≡◌};
ghost use Rattle.definition_walk.specs.Inner.Founds.{with_names, input_read, compr_met, found_undefined};

use names::Names;

// The names used, how many definitions there are, the row of the first undefined variable, whether `input` is read, and whether
// there is a comprehension.
#[derive(Clone, Copy)]
pub struct Used {
    pub names: Names,
    pub count: usize,
    pub undefined: Option<usize>,
    pub reads: bool,
    pub comprs: bool,
}

impl Used {
    pub fn with_names(self, names: Names) -> Used
        ensures { result ≡ with_names self names }
    {
        Used { names, ..self }
    }

    // `input` is read, if `input`.
    pub fn with_input(self, input: bool) -> Used
        ensures { result ≡ input_read self input }
    {
        Used {
            reads: self.reads || input,
            ..self
        }
    }

    // A comprehension is met.
    pub fn with_compr(self) -> Used
        ensures { result ≡ compr_met self }
    {
        Used {
            comprs: true,
            ..self
        }
    }

    // The variable at a row is undefined. The first one stays.
    pub fn with_undefined(self, row: usize) -> Used
        ensures { result ≡ found_undefined self row }
    {
        Used {
            undefined: self.undefined.or(Some(row)),
            ..self
        }
    }
}
