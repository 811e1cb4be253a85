//! Texts in parts, each below a line of its own.
use std::alloc::{AllocError, Global};

/// A part for each line that begins with `mark`: the rest of that line, and the text up to the next such line.
pub fn parts<'a>(
    alloc: Global,
    text: &'a str,
    mark: &str,
) -> Result<Vec<(&'a str, String)>, AllocError> {
    let mut parts: Vec<(&'a str, String)> = Vec::new(alloc);
    for line in text.split_inclusive('\n') {
        if let Some(heading) = line.strip_prefix(mark) {
            let heading = heading.strip_suffix("\n").unwrap_or(heading);
            parts.push((heading, String::new(alloc)))?;
        } else if let Some((_, part)) = parts.last_mut() {
            part.push_str(line)?;
        }
    }
    Ok(parts)
}
