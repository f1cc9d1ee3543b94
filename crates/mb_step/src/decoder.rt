//! What a processor decodes with.

use mb_instr::{Exchange, Instr, Move};
use mb_table::{FirstWords, LongerWords, PlacedShorts, Shorts, ThreeWords};
use std::alloc::{AllocError, Global};

/// Instructions of several words: those of two and three that are remembered, and a place for one that is decoded.
#[derive(Drop)]
pub(crate) struct Longer {
    pub(crate) words: LongerWords,
    pub(crate) three_words: ThreeWords,
    pub(crate) instruction: Instr,
}

/// What a processor decodes with: what it remembers of words, and a place for an instruction of several. What it holds
/// does not count, since all decoders answer the same; so a run of steps has one, and no step makes it.
#[derive(Drop)]
pub struct Decoder {
    pub(crate) first_words: FirstWords,
    pub(crate) shorts: Shorts,
    pub(crate) placed: PlacedShorts,
    pub(crate) longer: Longer,
}

impl Decoder {
    /// Nothing is remembered yet. It takes all the memory that it will need.
    pub fn new(alloc: Global) -> Result<Decoder, AllocError> {
        Ok(Decoder {
            first_words: FirstWords::new(alloc)?,
            shorts: Shorts::new(alloc)?,
            placed: PlacedShorts::new(alloc)?,
            longer: Longer {
                words: LongerWords::new(alloc)?,
                three_words: ThreeWords::new(alloc)?,
                instruction: Instr::Move(Move::Exg {
                    x: 0,
                    kind: Exchange::Data,
                    y: 0,
                }),
            },
        })
    }
}
