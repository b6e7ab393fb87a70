// `get_path_string`: a simple reference as names. No built-in has a path of more than three, so a longer one is not kept.

ghost use Rattle.std.specs.Prelude.{◌≡◌, List, ◌≤◌, length};
ghost use Rattle.scope.specs.Trees.{tree_at};
ghost use Rattle.scope.specs.Paths.{get_path_string};
ghost use Rattle.scope_walk.specs.Inner.Sheets.{sheet_at, Accepted, expr_count};
ghost use Rattle.scope_paths.specs.Inner.Paths.{appended, found_path, IndexStep};

use sheet::Kind;
use sheet_rows::row_at;

#[derive(Clone, Copy, PartialEq, Eq)]
pub enum Path {
    Empty,
    One(u16),
    Two(u16, u16),
    Three(u16, u16, u16),
    // More names than any built-in's path has.
    Long,
}

impl Path {
    pub fn append(self, name: u16) -> Path
        ensures { result ≡ appended self name }
    {
        match self {
            Path::Empty => Path::One(name),
            Path::One(first) => Path::Two(first, name),
            Path::Two(first, second) => Path::Three(first, second, name),
            Path::Three(_, _, _) | Path::Long => Path::Long,
        }
    }
}

// The index at a row is a part of the path, if it is a String.
fn index_step(tables: &[u16], row: usize, path: Path) -> Path
    requires { Accepted tables.now × (row ≤ expr_count tables.now) }
    ensures { IndexStep tables.now row path result }
{
    if row == 0 {
        return path;
    }
    let w = row_at(tables, row);
    match Kind::from(w.kind) {
        Kind::String => path.append(w.name),
        _ => path,
    }
}

// Three kinds make a simple reference, and the others none.
pub fn get_path_string(tables: &[u16], row: usize) -> Option<Path>
    requires { Accepted tables.now × (row ≤ expr_count tables.now) }
    ensures { result ≡ found_path (get_path_string (tree_at (sheet_at tables.now) row)) }
{
    if row == 0 {
        return None;
    }
    let w = row_at(tables, row);
    match Kind::from(w.kind) {
        Kind::String | Kind::RawString | Kind::Number | Kind::Bool | Kind::Null => None,
        Kind::Var => Some(Path::One(w.name)),
        Kind::Array | Kind::Set | Kind::Object => None,
        Kind::ArrayCompr | Kind::SetCompr | Kind::ObjectCompr => None,
        Kind::Call | Kind::UnaryExpr => None,
        // refr, and the field
        Kind::RefDot => {
            let path = get_path_string(tables, w.first as usize)?;
            Some(path.append(w.name))
        }
        // refr, and the index if it is a String
        Kind::RefBrack => {
            let path = get_path_string(tables, w.first as usize)?;
            Some(index_step(tables, w.second as usize, path))
        }
        Kind::BinExpr | Kind::BoolExpr | Kind::ArithExpr | Kind::AssignEq | Kind::AssignColEq =>
            None,
        Kind::Membership => None,
        Kind::Unknown => None,
    }
}
