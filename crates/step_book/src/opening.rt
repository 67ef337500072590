//! What a record begins with.
ghost use Rattle.std.specs.Prelude.{◌≡◌, [], IfOk, replicate};
ghost use Rattle.step_book.specs.Log.{opened, rows_of};
ghost use Rattle.step_book.specs.Mailing.{mailed};

use crate::mailbox::Mailbox;
use round_check::Checked;
use round_meaning::{Setup, initial_of, types_are_kept};
use run_events::NoMemory;
use std::alloc::Global;
use std::sync::Arc;
use step_machine::StoredState;

/// A row with its initial state for each node. The states share the kinds of the program's.
pub(crate) fn first_rows(
    alloc: Global,
    program: &Checked,
    setup: &Setup,
) -> Result<Vec<Vec<Arc<StoredState>>>, NoMemory>
    ensures { IfOk result (λ rows. rows_of rows.items ≡ (opened program.now setup.now).rows) }
{
    types_are_kept(program);
    let mut rows = Vec::new(alloc);
    for node in 0..setup.nodes {
        let state = initial_of(alloc, program, setup, node)?;
        let stored = StoredState::new(alloc, program.state_shape(), &state)?;
        let mut row = Vec::new(alloc);
        row.push(Arc::new(alloc, stored)?)?;
        rows.push(row)?;
    }
    Ok(rows)
}

/// No names for each node.
pub(crate) fn no_mail(alloc: Global, count: u32) -> Result<Vec<Mailbox>, NoMemory>
    ensures { IfOk result (λ mails. mails.items ≡ replicate count (mailed [] [] 0)) }
{
    let mut mails = Vec::new(alloc);
    for _node in 0..count {
        mails.push(Mailbox::new(alloc))?;
    }
    Ok(mails)
}

/// A step count of 0 for each node.
pub(crate) fn no_steps(alloc: Global, count: u32) -> Result<Vec<u64>, NoMemory>
    ensures { IfOk result (λ steps. steps.items ≡ replicate count 0) }
{
    Ok(vec![in alloc; 0; count as usize]?)
}
