//! How many bytes from the front on are of one class.

ghost use Rattle.std.specs.Prelude.{◌≡◌, ◌≤◌, length};
ghost use Rattle.std.specs.List.{prefix_len};
ghost use Rattle.mb_asm_text.specs.Kinds.{is_binary_digit, is_blank, is_digit, is_hexadecimal_digit, is_name_part, is_quotable};

use crate::class::{
    is_binary_digit, is_blank, is_digit, is_hexadecimal_digit, is_name_part, is_quotable,
};

#[tactic(auto, using(crate::proofs::Runs::run_within))]
pub(crate) fn name_parts(bytes: &[u8]) -> usize
    ensures run { result ≡ prefix_len is_name_part bytes.now }
    ensures within { result ≤ length bytes.now }
{
    bytes.iter().take_while(|&&byte| is_name_part(byte)).count()
}

#[tactic(auto, using(crate::proofs::Runs::run_within))]
pub(crate) fn digits(bytes: &[u8]) -> usize
    ensures run { result ≡ prefix_len is_digit bytes.now }
    ensures within { result ≤ length bytes.now }
{
    bytes.iter().take_while(|&&byte| is_digit(byte)).count()
}

#[tactic(auto, using(crate::proofs::Runs::run_within))]
pub(crate) fn hexadecimal_digits(bytes: &[u8]) -> usize
    ensures run { result ≡ prefix_len is_hexadecimal_digit bytes.now }
    ensures within { result ≤ length bytes.now }
{
    bytes
        .iter()
        .take_while(|&&byte| is_hexadecimal_digit(byte))
        .count()
}

#[tactic(auto, using(crate::proofs::Runs::run_within))]
pub(crate) fn binary_digits(bytes: &[u8]) -> usize
    ensures run { result ≡ prefix_len is_binary_digit bytes.now }
    ensures within { result ≤ length bytes.now }
{
    bytes
        .iter()
        .take_while(|&&byte| is_binary_digit(byte))
        .count()
}

#[tactic(auto, using(crate::proofs::Runs::run_within))]
pub(crate) fn quotables(bytes: &[u8]) -> usize
    ensures run { result ≡ prefix_len is_quotable bytes.now }
    ensures within { result ≤ length bytes.now }
{
    bytes.iter().take_while(|&&byte| is_quotable(byte)).count()
}

#[tactic(auto, using(crate::proofs::Runs::run_within))]
pub(crate) fn blanks(bytes: &[u8]) -> usize
    ensures run { result ≡ prefix_len is_blank bytes.now }
    ensures within { result ≤ length bytes.now }
{
    bytes.iter().take_while(|&&byte| is_blank(byte)).count()
}
