// `gather_used_vars_comprs_index_vars` of one expression: its variables, the input flag, first uses, and the definitions of its brackets.

ghost use Rattle.std.specs.Prelude.{◌≡◌, ◌≤◌, length};
ghost use Rattle.base.specs.Limits as limits;
ghost use Rattle.sheet.specs.Inner.Sheet.{row_at};
ghost use Rattle.definition_room.specs.Inner.Leaves.{bracket_vars};
ghost use Rattle.scope_walk.specs.Inner.Exprs.{expr_by};
ghost use Rattle.definition_state.specs.Inner.Frames.{failed};
ghost use Rattle.definition_state.specs.declared.Fault.TheVariants.{Undefined};
ghost use Rattle.definition_expr.specs.Inner.Asks.{AsksUse};
ghost use Rattle.definition_expr.specs.Inner.Defined.{ListedExtras, Taken};
ghost use Rattle.definition_expr.specs.Inner.UsesVars.{UsesVars};

use crate::{Using, compr_row};
use answer_blocks::answers_of;
use definition_state::{Fault, Progress};
use definition_walk::found::Used;
use definition_walk::vars::used_vars;
use names::Names;
use sheet_rows::row_at;

// The fault at an undefined variable.
fn fail_undefined(tables: &[u16], row: usize, p: Progress) -> Progress
    requires { (limits.table_entries ≤ length tables.now) × (row ≤ limits.most_expressions) }
    ensures { result ≡ failed p (Undefined (row_at tables.now row).line (row_at tables.now row).col) }
{
    let w = row_at(tables, row);
    let fault = Fault::Undefined(w.line, w.col);
    p.fail(fault)
}

// All variables of the expression at a row are defined: what its walk found is taken over.
fn use_defined(row: usize, p: Progress, used: Used) -> Using
    ensures { Taken row p used result }
{
    let scope = p.scope.use_input(used.reads);
    Using {
        progress: Progress {
            scope,
            count: used.count,
            ..p
        },
        names: used.names,
        comprs: compr_row(used.comprs, row),
    }
}

// The expression at a row of a statement, with the rest of its chain if `rest`. `extras` are the names that its extra argument binds. The
// definitions come behind those that there are, in front of the table. At a fault nothing is done.
pub fn use_vars(
    tables: &[u16],
    extras: Names,
    statement: usize,
    row: usize,
    rest: bool,
    p: Progress,
    firsts: &mut [u64],
    work: &mut [u64],
) -> Using
    requires { AsksUse tables.now row p firsts.old work.old (bracket_vars (expr_by tables.now rest row)) × ListedExtras extras }
    ensures { UsesVars tables.now extras statement row rest p firsts.old work.old result firsts.new work.new }
{
    if !p.is_sound() {
        return Using {
            progress: p,
            names: Names::empty(),
            comprs: row,
        };
    }
    let width = p.width;
    let end = work.len() - answers_of(width);
    let used = used_vars(
        tables,
        p.scope,
        extras,
        statement,
        row,
        rest,
        p.count,
        firsts,
        &mut work[..end],
        width,
    );
    match used.undefined {
        None => use_defined(row, p, used),
        Some(at) => Using {
            progress: fail_undefined(tables, at, p),
            names: Names::empty(),
            comprs: row,
        },
    }
}
