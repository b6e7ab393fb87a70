// The names that the language gives a meaning. Their rows stand in the head of the tables.

ghost use Rattle.std.specs.Prelude.{◌≡◌, ◌≤◌, length};
ghost use Rattle.base.specs.Limits as limits;
ghost use Rattle.sheet.specs.Sheet.{is_input, is_special};
ghost use Rattle.scope_walk.specs.Inner.Sheets.{sheet_at};

pub fn is_input(tables: &[u16], name: u16) -> bool
    requires { limits.table_entries ≤ length tables.now }
    ensures { result ≡ is_input (sheet_at tables.now) name }
{
    name == tables[6]
}

// Is it `_`, `input` or `data`?
pub fn is_special(tables: &[u16], name: u16) -> bool
    requires { limits.table_entries ≤ length tables.now }
    ensures { result ≡ is_special (sheet_at tables.now) name }
{
    if name == tables[5] {
        return true;
    }
    if is_input(tables, name) {
        return true;
    }
    name == tables[7]
}
