//! Tables of names.

ghost use Rattle.std.specs.Prelude.{◌≡◌, map};
ghost use Rattle.std.specs.Str.{str_eq_ignore_ascii_case};
ghost use Rattle.mb_syntax.specs.Tables.{found_in, row_said};

/// What the table has beside a word in either case. The first row counts.
pub fn found_in<T: Copy>(table: &[(&[u8], T)], word: &[u8]) -> Option<T>
    ensures { result ≡ found_in (map row_said table.now) word.now }
{
    for (name, found) in table {
        if is_same(name, word) {
            return Some(*found);
        }
    }
    None
}

/// In either case.
fn is_same(name: &[u8], word: &[u8]) -> bool
    ensures { result ≡ str_eq_ignore_ascii_case name.now word.now }
{
    name.eq_ignore_ascii_case(word)
}
