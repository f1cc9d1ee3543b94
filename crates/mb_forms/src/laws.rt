//! What holds of every form.

ghost use Rattle.std.specs.Prelude.{List};
ghost use Rattle.mb_forms.specs.Forms.{Form, Text, IsNumbered};
ghost use Rattle.mb_forms.specs.Clap.{Agrees};

/// For every form and all words: the test of the hyphens and then `clap` take the words exactly where the
/// form reads them, and find the same values.
pub fn forms_are_read()
    ensures { (form : Form) (words : List Text) → IsNumbered form → Agrees form words }
{}
