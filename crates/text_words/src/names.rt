//! A value by its name.

ghost use Rattle.std.specs.Prelude.{◌≡◌, map};
ghost use Rattle.text_words.specs.inner.Names.{by_name};

/// The value that stands beside a name in a table, the first where the name stands there twice.
pub fn by_name<T: Copy>(table: &[(&[u8], T)], name: &[u8]) -> Option<T>
    ensures { result ≡ by_name (map (λ row. (row.0.now, row.1)) table.now) name.now }
{
    for (known, value) in table {
        if name == *known {
            return Some(*value);
        }
    }
    None
}
