//! What a command prints, as a transcript has it.
use std::alloc::{AllocError, Global};

/// The lines of standard output; then each line of standard error after the exit status in
/// brackets, or the status alone if standard error is empty and the status isn't 0.
pub(crate) fn printed_lines(
    alloc: Global,
    out: &[u8],
    err: &[u8],
    status: u8,
) -> Result<Vec<String>, AllocError> {
    let mut lines = Vec::new(alloc);
    let out = String::from_utf8_lossy(alloc, out)?;
    for line in out.as_str().lines() {
        add(&mut lines, String::from_str(alloc, line)?)?;
    }
    let err = String::from_utf8_lossy(alloc, err)?;
    for line in err.as_str().lines() {
        add(&mut lines, format!(in alloc; "[{status}] {line}")?)?;
    }
    if status != 0 && err.is_empty() {
        add(&mut lines, format!(in alloc; "[{status}]")?)?;
    }
    Ok(lines)
}

fn add(lines: &mut Vec<String>, line: String) -> Result<(), AllocError> {
    lines.push(line)?;
    Ok(())
}
