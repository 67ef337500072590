//! What is refused, and what only lacks memory.
use command_runs::Refusal;

/// What was answered; `None` if it was refused, for another cause than memory.
pub(crate) fn unless_refused<T, E>(answer: Result<T, E>) -> Result<Option<T>, Refusal>
where
    Refusal: From<E>,
{
    match answer {
        Ok(answer) => Ok(Some(answer)),
        Err(fault) => match Refusal::from(fault) {
            Refusal::NoMemory => Err(Refusal::NoMemory),
            _ => Ok(None),
        },
    }
}
