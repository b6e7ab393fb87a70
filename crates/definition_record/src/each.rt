// A definition of each name in a set.

ghost use Rattle.std.specs.Prelude.{◌<◌, length};
ghost use Rattle.base.specs.Limits as limits;
ghost use Rattle.definition_record.specs.Inner.Each.{Less, EachFits, EachDefined};

use definition_walk::index::push_definition;
use names::Names;
use names_width::Width;

// The names that x is defined from: those used, without x itself where `without`.
pub fn less(used: Names, x: usize, without: bool) -> Names
    requires { x < limits.per_name }
    ensures { Less used x without result }
{
    if without {
        return used.remove(x);
    }
    used
}

// The statement defines each name from the names `used`, from row `count` on. Hands back the count of rows.
pub fn define_each(
    statement: usize,
    names: Names,
    used: Names,
    without: bool,
    count: usize,
    definitions: &mut [u64],
    width: Width,
) -> usize
    requires { EachFits width names count (length definitions.old) }
    ensures { EachDefined width statement names used without definitions.old definitions.new count result }
{
    let mut n = count;
    for x in names.members() {
        let from = less(used, x, without);
        push_definition(statement, x, from, n, definitions, width);
        n += 1;
    }
    n
}
