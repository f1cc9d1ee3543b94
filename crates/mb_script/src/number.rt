//! Decimal numbers.

ghost use Rattle.std.specs.Prelude.{◌≡◌, ◌≤◌, IfSome};
ghost use Rattle.mb_script.specs.Words.{number_of, positive_of};

/// Decimal digits, at least one, that spell at most 4,294,967,295.
#[tactic(auto, using(crate::proofs::Numbers::all_read))]
pub(crate) fn number_of(word: &[u8]) -> Option<u32>
    ensures { result ≡ number_of word.now }
{
    if word.is_empty() {
        return None;
    }
    let mut number: u32 = 0;
    for &digit in word {
        if !digit.is_ascii_digit() {
            return None;
        }
        let next = 10 * u64::from(number) + u64::from(digit - b'0');
        if next > u64::from(u32::MAX) {
            return None;
        }
        number = next as u32;
    }
    Some(number)
}

/// Decimal digits that spell 1 to 4,294,967,295.
pub(crate) fn positive_of(word: &[u8]) -> Option<u32>
    ensures given { result ≡ positive_of word.now }
    ensures from_one { IfSome result (λ number. 1 ≤ number) }
{
    let number = number_of(word)?;
    if number == 0 {
        return None;
    }
    Some(number)
}
