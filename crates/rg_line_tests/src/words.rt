//! Words as the program is given them.
use std::alloc::{AllocError, Global};

/// Returns the words as owned strings.
pub fn owned(alloc: Global, words: &[&str]) -> Result<Vec<String>, AllocError> {
    let mut all = Vec::new(alloc);
    for word in words {
        match all.push(String::from_str(alloc, word)?) {
            Ok(()) => {}
            Err(_) => return Err(AllocError),
        }
    }
    Ok(all)
}
