//! The cut of a line into tokens.

ghost use Rattle.std.specs.Prelude.{ℕ, ◌<◌, ◌^◌, List, Err, IfOk, IsErrOf, Ok, Result, length};
ghost use Rattle.mb_asm_text.specs.declared.fault.LexFault.TheVariants as lex_fault;
ghost use Rattle.mb_asm_text.specs.declared.token.Token.{Token};
ghost use Rattle.mb_asm_text.specs.Cut.{IsCut};
ghost use Rattle.mb_asm_text.specs.Answers.{IsAnswer, Tells};

use crate::fault::LexFault;
use crate::longest::token_at;
use crate::token::{Token, Tokens};
use std::alloc::Global;

/// The tokens of a line, which is given without its end.
///
/// The line is cut from the left, at each place into the longest token that begins there.
pub fn lex(alloc: Global, line: &[u8]) -> Result<Tokens, LexFault>
    requires { length line.now < 2 ^ 31 }
    // The tokens cut the whole line.
    ensures tokens { IfOk result (λ tokens. IsCut line.now (Ok tokens)) }
    // The cut reaches the place, and no token begins there.
    ensures no_token { (place : ℕ) → IsErrOf result (lex_fault.At place) → IsCut line.now (Err place) }
    // Whatever the cut of the line is, the answer tells it, unless memory runs out.
    ensures only { (cut : Result (List Token) ℕ) → IsCut line.now cut → Tells result cut }
{
    cut(alloc, line)
}

fn cut(alloc: Global, line: &[u8]) -> Result<Tokens, LexFault>
    requires { length line.now < 2 ^ 31 }
    ensures { IsAnswer line.now result }
{
    let mut tokens = Vec::new(alloc);
    let mut place = 0;
    while place < line.len() {
        let Some(token) = token_at(line, place) else {
            return Err(LexFault::At(place as u32));
        };
        tokens.push(token)?;
        place = token.end as usize;
    }
    Ok(Tokens::new(tokens))
}
