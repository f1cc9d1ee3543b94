//! Tests of words and texts as instructions: the decoder and its table, the encoder, and the assembler.
#![tactic(auto)]

#[cfg(test)]
mod census;
#[cfg(test)]
mod decoding;
#[cfg(test)]
mod encoding;
#[cfg(test)]
mod mnemonics;
#[cfg(test)]
mod read_back;
#[cfg(test)]
mod sources;
#[cfg(test)]
mod spelled;
#[cfg(test)]
mod syntax;
#[cfg(test)]
mod tokens;
