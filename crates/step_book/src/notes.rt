//! What an event adds to a record, field by field. All growth goes before any change, so an error
//! leaves each field as it was.
ghost use Rattle.std.specs.Arc.{arc_value};
ghost use Rattle.std.specs.Prelude.{◌≡◌, ◌+◌, ◌<◌, ◌≤◌, [], ◌∷◌, ◌++◌, OnOk, OnErr};
ghost use Rattle.std.specs.Prelude.{slice_index, slice_set, true, vec_len};
ghost use Rattle.run_events.specs.Limits.{max_nodes};
ghost use Rattle.step_book.specs.declared.mark.Mark.TheVariants.{Unsent};
ghost use Rattle.step_book.specs.History.{arrival};
ghost use Rattle.step_book.specs.Stored.{IsShort};
ghost use Rattle.step_book.specs.Tables.{Puts, SameTables};
ghost use Rattle.step_book.specs.Log.{states_of};
ghost use Rattle.run_events.specs.Stored.{IsStorable, IsStorableName};

use crate::growth::room;
use crate::mailbox::Mailbox;
use crate::mark::Mark;
use crate::marks::Marks;
use run_events::{Event, Name, NoMemory, StoredEvent, StoredName};
use std::sync::Arc;
use step_machine::StoredState;

/// A step of a node.
#[inline(always)]
pub(crate) fn note_step(
    trace: &mut Vec<StoredEvent>,
    steps: &mut Vec<u64>,
    node: u32,
) -> Result<(), NoMemory>
    requires storable { node < max_nodes }
    requires node_in { node < vec_len steps.old }
    requires counted { slice_index steps.old.items node ≤ vec_len trace.old }
    ensures trace { OnOk result (trace.new.items ≡ trace.old.items ++ Event.Step node ∷ []) }
    ensures steps { OnOk result
        (steps.new.items ≡ slice_set steps.old.items node (slice_index steps.old.items node + 1)) }
    ensures trace_kept { OnErr result (trace.new.items ≡ trace.old.items) }
    ensures steps_kept { OnErr result (steps.new.items ≡ steps.old.items) }
{
    room(trace)?;
    let step = StoredEvent::new(Event::Step(node));
    trace.push_reserved(step);
    steps[node as usize] += 1;
    Ok(())
}

/// A send step, with the mark of its message, which is one more sent if it flies.
#[inline(always)]
pub(crate) fn note_send(
    trace: &mut Vec<StoredEvent>,
    steps: &mut Vec<u64>,
    marks: &mut Marks,
    messages: &mut Vec<StoredName>,
    name: Name,
    place: usize,
    mark: Mark,
) -> Result<(), NoMemory>
    requires storable { IsStorableName name }
    requires short { IsShort mark }
    requires node_in { name.from < vec_len steps.old }
    requires counted { slice_index steps.old.items name.from ≤ vec_len trace.old }
    ensures trace { OnOk result (trace.new.items ≡ trace.old.items ++ Event.Step name.from ∷ []) }
    ensures steps { OnOk result (steps.new.items
        ≡ slice_set steps.old.items name.from (slice_index steps.old.items name.from + 1)) }
    ensures marks { OnOk result (Puts Unsent marks.old marks.new 0 place mark) }
    ensures messages { OnOk result (messages.new.items ≡ messages.old.items ++ arrival name mark) }
    ensures trace_kept { OnErr result (trace.new.items ≡ trace.old.items) }
    ensures steps_kept { OnErr result (steps.new.items ≡ steps.old.items) }
    ensures marks_kept { OnErr result (SameTables Unsent marks.old marks.new) }
    ensures messages_kept { OnErr result (messages.new.items ≡ messages.old.items) }
{
    marks.reserve(0, place)?;
    room(messages)?;
    note_step(trace, steps, name.from)?;
    marks.put(0, place, mark);
    if mark == Mark::Flying {
        messages.push_reserved(StoredName::new(name));
    }
    Ok(())
}

/// A receive: what waits is handed out.
#[inline(always)]
pub(crate) fn note_receive(
    trace: &mut Vec<StoredEvent>,
    steps: &mut Vec<u64>,
    mail: &mut Mailbox,
    node: u32,
) -> Result<(), NoMemory>
    requires storable { node < max_nodes }
    requires node_in { node < vec_len steps.old }
    requires counted { slice_index steps.old.items node ≤ vec_len trace.old }
    ensures trace { OnOk result (trace.new.items ≡ trace.old.items ++ Event.Step node ∷ []) }
    ensures steps { OnOk result
        (steps.new.items ≡ slice_set steps.old.items node (slice_index steps.old.items node + 1)) }
    ensures handed { OnOk result (mail.new.handed ≡ mail.old.handed ++ mail.old.waiting ∷ []) }
    ensures waiting { OnOk result (mail.new.waiting ≡ []) }
    ensures trace_kept { OnErr result (trace.new.items ≡ trace.old.items) }
    ensures steps_kept { OnErr result (steps.new.items ≡ steps.old.items) }
    ensures mail_kept { OnErr result (mail.new ≡ mail.old) }
{
    room(trace)?;
    mail.hand_out()?;
    trace.push_reserved(StoredEvent::new(Event::Step(node)));
    steps[node as usize] += 1;
    Ok(())
}

/// A release of a message to those that wait.
#[inline(always)]
pub(crate) fn note_release(
    trace: &mut Vec<StoredEvent>,
    answers: &mut Vec<bool>,
    mail: &mut Mailbox,
    name: Name,
) -> Result<(), NoMemory>
    requires { IsStorableName name }
    ensures trace { OnOk result (trace.new.items ≡ trace.old.items ++ Event.Release name ∷ []) }
    ensures answers { OnOk result (answers.new.items ≡ answers.old.items ++ true ∷ []) }
    ensures handed { OnOk result (mail.new.handed ≡ mail.old.handed) }
    ensures waiting { OnOk result (mail.new.waiting ≡ mail.old.waiting ++ name ∷ []) }
    ensures trace_kept { OnErr result (trace.new.items ≡ trace.old.items) }
    ensures answers_kept { OnErr result (answers.new.items ≡ answers.old.items) }
    ensures mail_kept { OnErr result (mail.new ≡ mail.old) }
{
    room(trace)?;
    room(answers)?;
    mail.push(name)?;
    answers.push_reserved(true);
    trace.push_reserved(StoredEvent::new(Event::Release(name)));
    Ok(())
}

/// An event of the network with its answer, which changes no mail.
#[inline(always)]
pub(crate) fn note_answer(
    trace: &mut Vec<StoredEvent>,
    answers: &mut Vec<bool>,
    event: Event,
    answer: bool,
) -> Result<(), NoMemory>
    requires { IsStorable event }
    ensures trace { OnOk result (trace.new.items ≡ trace.old.items ++ event ∷ []) }
    ensures answers { OnOk result (answers.new.items ≡ answers.old.items ++ answer ∷ []) }
    ensures trace_kept { OnErr result (trace.new.items ≡ trace.old.items) }
    ensures answers_kept { OnErr result (answers.new.items ≡ answers.old.items) }
{
    room(trace)?;
    room(answers)?;
    answers.push_reserved(answer);
    trace.push_reserved(StoredEvent::new(event));
    Ok(())
}

/// The state that a node ended its round with goes to its row.
pub(crate) fn note_close(
    states: &mut Vec<Arc<StoredState>>,
    state: Arc<StoredState>,
) -> Result<(), NoMemory>
    ensures ok { OnOk result
        (states_of states.new.items ≡ states_of states.old.items ++ arc_value state ∷ []) }
    ensures err { OnErr result (states.new.items ≡ states.old.items) }
{
    states.push(state)?;
    Ok(())
}
