//! A text line by line.

ghost use Rattle.std.specs.Prelude.{◌≡◌, ◌+◌, ◌<◌, ◌≤◌, ◌^◌, ◌∷◌, [], IfNone, IfSome, MatchOption, length};
ghost use Rattle.mb_lines.specs.Lines.{left, lines_in, numbered, past, room};
ghost use Rattle.mb_lines.specs.Answers.{line_said};

use crate::line::Line;
use bstr::ByteSlice;
use std::marker::Model;

/// The lines of a text that have characters, in their order.
#[derive(Drop)]
pub struct Lines<'a> {
    lines: bstr::Lines<'a>,
    count: u32,
}

impl<'a> Model for Lines<'a> {
    ghost use Rattle.std.specs.Prelude.{◌+◌, ◌<◌, ◌^◌, length};
    ghost use Rattle.mb_lines.specs.Lines.{LinesLeft};

    ghost Value = { LinesLeft };

    ghost view = { λ s. record { count = s.count; lines = s.lines } };

    ghost invariant = { λ s. s.count + length s.lines < 2 ^ 31 };
}

impl<'a> Lines<'a> {
    pub fn new(text: &'a [u8]) -> Lines<'a>
        requires { length text.now < 2 ^ 31 }
        ensures left { left result ≡ numbered text.entry.now }
        ensures past { past result ≡ length (lines_in text.entry.now) + 1 }
        ensures room { room result ≤ length text.entry.now }
    {
        Lines {
            lines: text.lines(),
            count: 0,
        }
    }

    /// How many lines came so far, those without characters too.
    pub fn count(&self) -> u32
        ensures count { result ≡ self.now.count }
        ensures few { result < 2 ^ 31 }
    {
        self.count
    }

    /// The next line that has characters.
    pub fn next_line(&mut self) -> Option<Line<'a>>
        ensures left { MatchOption result (left self.old ≡ [])
            (λ line. left self.old ≡ line_said line ∷ left self.new) }
        ensures count { IfSome result (λ line. self.new.count ≡ line.number) }
        ensures end { IfNone result (self.new.count + 1 ≡ past self.old) }
        ensures past { past self.new ≡ past self.old }
        ensures room { IfSome result (λ line. length line.characters.now + room self.new ≤ room self.old) }
    {
        while let Some(characters) = self.lines.next() {
            self.count += 1;
            if !characters.is_empty() {
                return Some(Line {
                    number: self.count,
                    characters,
                });
            }
        }
        None
    }
}
