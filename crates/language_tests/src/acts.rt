//! Acts and their answers, line by line.
use std::alloc::Global;
use test_kit::Fault;

/// What answers an act.
pub trait Answers {
    fn answer(&mut self, alloc: Global, act: &str, out: &mut String) -> Result<(), Fault>;
}

/// Writes a line for each act.
pub fn answer_all<T: Answers>(
    alloc: Global,
    acts: &mut T,
    input: &str,
    out: &mut String,
) -> Result<(), Fault> {
    for act in input.lines() {
        acts.answer(alloc, act, out)?;
        out.push_str("\n")?;
    }
    Ok(())
}
