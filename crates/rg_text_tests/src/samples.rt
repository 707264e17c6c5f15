//! Texts for the tests.
use std::alloc::{AllocError, Global};

/// Adds a name of three letters and a space: another one for each number below 17,576.
pub fn push_name(text: &mut Vec<u8>, number: u32) -> Result<(), AllocError> {
    text.push(b'a' + (number / 676 % 26) as u8)?;
    text.push(b'a' + (number / 26 % 26) as u8)?;
    text.push(b'a' + (number % 26) as u8)?;
    text.push(b' ')?;
    Ok(())
}

/// Returns a text, then so many names, then another text.
pub fn with_names(
    alloc: Global,
    head: &str,
    names: u32,
    tail: &str,
) -> Result<Vec<u8>, AllocError> {
    let mut text = Vec::from_slice(alloc, head.as_bytes())?;
    for number in 0..names {
        push_name(&mut text, number)?;
    }
    text.extend_from_slice(tail.as_bytes())?;
    Ok(text)
}

/// Returns a text, then so many bytes `x`, then another text.
pub fn with_bytes(
    alloc: Global,
    head: &str,
    bytes: u32,
    tail: &str,
) -> Result<Vec<u8>, AllocError> {
    let mut text = Vec::from_slice(alloc, head.as_bytes())?;
    for _ in 0..bytes {
        text.push(b'x')?;
    }
    text.extend_from_slice(tail.as_bytes())?;
    Ok(text)
}
