//! Texts in parts, of which a case changes one.

use std::alloc::{AllocError, Global};

/// The text of the parts, each on a line of its own, with the one at this place changed.
pub(crate) fn edited(
    alloc: Global,
    parts: &[&str],
    at: usize,
    part: &str,
) -> Result<String, AllocError> {
    let mut text = String::new(alloc);
    for (i, old) in parts.iter().enumerate() {
        text.push_str(if i == at { part } else { *old })?;
        text.push_str("\n")?;
    }
    Ok(text)
}
