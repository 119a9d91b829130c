// Tables of names.
ghost use Rattle.std.specs.Prelude.{◌≡◌};
ghost use Rattle.asm_lines.specs.Bytes.{look_up};
ghost use Rattle.asm_lines.specs.Tables.{rows_of};

/// The value beside a name in a table.
pub fn look_up<T: Copy>(rows: &[(&str, T)], name: &[u8]) -> Option<T>
    ensures { result ≡ look_up (rows_of rows.now) name.now }
{
    'rows: for (known, value) in rows {
        if known.as_bytes() == name {
            return Some(*value);
        }
    }
    None
}
