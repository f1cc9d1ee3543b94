//! The lines of a text that are no comments.

ghost use Rattle.std.specs.Prelude.{◌≡◌, ◌+◌, ◌≤◌, ◌∷◌, [], IfErr, IfNone, IfSome, MatchOption, MatchResult, length};
ghost use Rattle.mb_lines.specs.Lines.{left, past, room};
ghost use Rattle.mb_lines.specs.Answers.{line_said};
ghost use Rattle.mb_script.specs.declared.fault.LineWhy.TheVariants as why;
ghost use Rattle.mb_script.specs.Lines.{is_comment, statements};

use crate::fault::{LineFault, LineWhy};
use mb_lines::{Line, Lines};

/// The next line that is no comment.
pub(crate) fn next_statement<'a>(lines: &mut Lines<'a>) -> Option<Line<'a>>
    ensures left { MatchOption result (statements (left lines.old) ≡ [])
        (λ line. statements (left lines.old) ≡ line_said line ∷ statements (left lines.new)) }
    ensures end { IfNone result (lines.new.count + 1 ≡ past lines.old) }
    ensures past { past lines.new ≡ past lines.old }
    ensures room { IfSome result (λ line. length line.characters.now + room lines.new ≤ room lines.old) }
{
    while let Some(line) = lines.next_line() {
        if !is_comment(line.characters) {
            return Some(line);
        }
    }
    None
}

/// The same, where a line must be there.
pub(crate) fn due_statement<'a>(lines: &mut Lines<'a>) -> Result<Line<'a>, LineFault>
    ensures left { MatchResult result
        (λ line. statements (left lines.old) ≡ line_said line ∷ statements (left lines.new))
        (λ _. statements (left lines.old) ≡ []) }
    ensures missing { IfErr result (λ fault. fault ≡ LineFault.Line (past lines.old) why.Word) }
    ensures past { past lines.new ≡ past lines.old }
{
    match next_statement(lines) {
        Some(line) => Ok(line),
        None => Err(LineFault::Line {
            number: lines.count() + 1,
            why: LineWhy::Word,
        }),
    }
}

fn is_comment(characters: &[u8]) -> bool
    ensures { result ≡ is_comment characters.now }
{
    matches!(characters, [b'#', ..])
}
