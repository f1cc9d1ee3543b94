//! Assembles a text.

ghost use Rattle.std.specs.Prelude.{◌≡◌, ◌<◌, ◌^◌, All, IfErr, IfOk, Ok, length};
ghost use Rattle.mb_lines.specs.Lines.{numbered};
ghost use Rattle.mb_srec.specs.Image.{IsAddressed, contents_of};
ghost use Rattle.mb_asm.specs.Answers.{Faults, Gives};
ghost use Rattle.mb_asm.specs.Gathered.{chunks_said};
ghost use Rattle.mb_asm.specs.Laying.{layout_said};
ghost use Rattle.mb_asm.specs.Layouts.{after_lines, beginning};
ghost use Rattle.mb_asm.specs.Said.{symbols_said};
ghost use Rattle.mb_asm.specs.Texts.{assembled, chunks_from, no_chunks};

use crate::chunks::Chunks;
use crate::fault::AsmFault;
use crate::judging::{address_or_zero, judged_line};
use crate::laying::{lay, statement_in};
use crate::layout::Layout;
use crate::symbol::Symbols;
use indexmap::IndexMap;
use mb_lines::Lines;
use mb_srec::Image;
use std::alloc::{AllocError, Global};

/// Assembles a text. The image has a chunk for each run of bytes without a gap, in the order of the text.
///
/// All lines are judged with the symbols of the whole text, and the first faulty line is told, with the first kind of
/// fault in the order of [`AsmKind`](crate::AsmKind).
pub fn assemble(alloc: Global, text: &[u8]) -> Result<Image, AsmFault>
    requires { length text.now < 2 ^ 31 }
    ensures image { IfOk result (λ image. assembled text.now ≡ Ok (contents_of image)) }
    ensures addressed { IfOk result (λ image. All IsAddressed (contents_of image)) }
    ensures fault { IfErr result (λ fault. Faults fault (assembled text.now)) }
{
    image_of(alloc, text)
}

fn image_of(alloc: Global, text: &[u8]) -> Result<Image, AsmFault>
    requires { length text.now < 2 ^ 31 }
    ensures given { Gives contents_of result (assembled text.now) }
    ensures addressed { IfOk result (λ image. All IsAddressed (contents_of image)) }
{
    let layout = laid_out(alloc, text)?;
    let mut chunks = chunks_of(alloc, text, &layout.symbols)?;
    chunks.close(alloc, 0)?;
    Ok(Image::new(chunks.whole))
}

fn beginning<'t>(alloc: Global) -> Layout<'t>
    ensures { layout_said result ≡ beginning }
{
    Layout {
        at: Some(0),
        symbols: IndexMap::new(alloc),
    }
}

/// The address behind all lines, and their symbols.
fn laid_out(alloc: Global, text: &[u8]) -> Result<Layout<'_>, AllocError>
    requires { length text.now < 2 ^ 31 }
    ensures { IfOk result (λ layout. layout_said layout ≡ after_lines beginning (numbered text.now)) }
{
    let mut layout = beginning(alloc);
    let mut lines = Lines::new(text);
    while let Some(line) = lines.next_line() {
        let statement = statement_in(alloc, line.characters)?;
        lay(alloc, &mut layout, line.characters, &statement)?;
    }
    Ok(layout)
}

/// The chunks of all lines, with these symbols.
fn chunks_of(alloc: Global, text: &[u8], symbols: &Symbols) -> Result<Chunks, AsmFault>
    requires { length text.now < 2 ^ 31 }
    ensures { Gives chunks_said result
        (chunks_from (symbols_said symbols.now) beginning no_chunks (numbered text.now)) }
{
    let mut layout = beginning(alloc);
    let mut chunks = Chunks {
        whole: Vec::new(alloc),
        at: 0,
        bytes: Vec::new(alloc),
    };
    let mut lines = Lines::new(text);
    while let Some(line) = lines.next_line() {
        let statement = statement_in(alloc, line.characters)?;
        match judged_line(alloc, symbols, &layout, line.characters, &statement) {
            Ok(laid) => chunks.add(alloc, address_or_zero(layout.at), &laid)?,
            Err(refusal) => return Err(refusal.at(line.number)),
        }
        lay(alloc, &mut layout, line.characters, &statement)?;
    }
    Ok(chunks)
}
