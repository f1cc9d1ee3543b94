//! The values that words give.

ghost use Rattle.std.specs.Prelude.{◌≡◌, option_map};
ghost use Rattle.mb_forms.specs.Forms.{value_in};
ghost use Rattle.mb_forms.specs.Said.{text_said};

use clap::ArgMatches;
use std::marker::Model;

/// What the words of a command give: each value with the name that it is given to, in their order. Contracts see
/// that list.
#[derive(Drop)]
pub struct Uses<'a> {
    pub(crate) matches: ArgMatches<'a>,
}

impl<'a> Model for Uses<'a> {
    ghost use Rattle.std.specs.Prelude.{◌≡◌, List, map};
    ghost use Rattle.clap.specs.Words.{found_of, rows_of};
    ghost use Rattle.mb_forms.specs.Forms.{Use};
    ghost use Rattle.mb_forms.specs.Clap.{row_at, use_at};

    ghost Value = { List Use };

    ghost view = { λ u. map use_at (rows_of (found_of u.matches)) };

    ghost invariant = { λ u. rows_of (found_of u.matches) ≡ map row_at (map use_at (rows_of (found_of u.matches))) };
}

impl<'a> Uses<'a> {
    /// The value that this name is given.
    pub fn get(&self, name: &str) -> Option<&'a str>
        ensures { option_map text_said result ≡ value_in name.now self.now }
    {
        self.matches.get_str(name)
    }
}
