//! How a test program ends.
use crate::fault::Fault;
use std::io::Write;
use std::process::ExitCode;

/// Prints an answer. If there is none, or it can't be printed, standard error says why, and the
/// exit status is the fault's.
pub fn end(rt: &HostRuntime, answer: Result<String, Fault>) -> ExitCode {
    match print(rt, answer) {
        Ok(()) => ExitCode::SUCCESS,
        Err(fault) => fault.tell(rt),
    }
}

fn print(rt: &HostRuntime, answer: Result<String, Fault>) -> Result<(), Fault> {
    rt.stdout().write_all(answer?.as_bytes())?;
    Ok(())
}
