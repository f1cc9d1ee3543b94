//! Words as their hexadecimal digits.

use std::alloc::{AllocError, Global};

/// The text that spells words.
pub fn spell(alloc: Global, words: &[u16]) -> Result<String, AllocError> {
    let mut text = String::new(alloc);
    for word in words {
        if !text.is_empty() {
            text.push_str(" ")?;
        }
        text.push_str(&format!(in alloc; "{word:04x}")?)?;
    }
    Ok(text)
}
