// The built-in that a path names.

ghost use Rattle.std.specs.Prelude.{◌≡◌, List, suc, ◌≤◌, length, get_or};
ghost use Rattle.base.specs.Limits as limits;
ghost use Rattle.scope.specs.Paths.{path_of};
ghost use Rattle.scope_walk.specs.Inner.Sheets.{Accepted};
ghost use Rattle.scope_paths.specs.Inner.Paths.{short_of};
ghost use Rattle.scope_paths.specs.Inner.Builtins.{parted, has_path, arity_from, arity_with};

use crate::paths::Path;
use sheet::Builtin;
use sheet_rows::builtin_at;

// A path with a part more, if there is one.
fn add_part(path: Path, name: u16) -> Path
    ensures { result ≡ parted path name }
{
    if 0 < name {
        return path.append(name);
    }
    path
}

fn path_of(b: Builtin) -> Path
    ensures { result ≡ short_of (path_of b) }
{
    let one = add_part(Path::Empty, b.first);
    let two = add_part(one, b.second);
    add_part(two, b.third)
}

fn has_path(b: Builtin, path: Path) -> bool
    ensures { result ≡ has_path path b }
{
    path_of(b) == path
}

// Of the first built-in from a row on that has the path.
pub fn arity_from(tables: &[u16], row: usize, path: Path) -> Option<u16>
    requires { Accepted tables.now × (1 ≤ row) × (row ≤ suc limits.most_built_ins) }
    ensures { result ≡ arity_from tables.now row path }
{
    for at in row..tables[1] as usize + 1 {
        let b = builtin_at(tables, at);
        if has_path(b, path) {
            return Some(b.arity);
        }
    }
    None
}

// Of the first of all.
pub fn arity_of(tables: &[u16], path: Path) -> Option<u16>
    requires { Accepted tables.now }
    ensures { result ≡ arity_with tables.now path }
{
    arity_from(tables, 1, path)
}
