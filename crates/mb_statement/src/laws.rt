//! What holds of every statement's text.

ghost use Rattle.std.specs.Prelude.{◌≡◌, ◌∷◌, Some, true};
ghost use Rattle.mb_syntax.specs.Lines.{statement_in};
ghost use Rattle.mb_statement.specs.Statements as statements;
ghost use Rattle.mb_statement.specs.Texts.{statement_text};
ghost use Rattle.mb_statement.specs.Written.{is_written};
ghost use Rattle.mb_statement.specs.Read.{read_of};

/// A line that is a blank and the text of a statement is read as that statement, where it is written.
pub fn texts_are_read()
    ensures { (s : statements.Statement) → is_written s ≡ true
        → statement_in (32 ∷ statement_text s) ≡ Some (read_of s) }
{}
