//! Forms of commands.

/// An option with one value.
#[derive(Clone, Copy, Debug)]
pub struct FormOption<'a> {
    /// Its name without `--`.
    pub name: &'a str,
    /// It must be given.
    pub required: bool,
}

/// The form of a command's words.
#[derive(Clone, Copy, Debug)]
pub struct Form<'a> {
    /// The command's name.
    pub name: &'a str,
    /// The names of its positional words in their order. All must be given.
    pub positionals: &'a [&'a str],
    /// Its options, which come in any order.
    pub options: &'a [FormOption<'a>],
}
