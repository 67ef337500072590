//! What a node would send, as it's read again from its bytes.
ghost use Rattle.std.specs.Prelude.{◌≡◌, ◌⊎◌, IfErr, IfOk, Some};
ghost use Rattle.frame_format.specs.Faults.{first_fault};
ghost use Rattle.frame_format.specs.Formats.{format_of};
ghost use Rattle.frame_format.specs.Spelling.{Spells};
ghost use Rattle.frame_format.specs.declared.fault.FrameFault.TheVariants as fault;

use crate::journal::doing::prepare;
use crate::journal::seen::{Answer, tell};
use crate::journal::telling::tell_name;
use frame_format::{Frame, FrameFault, Layout, decode};
use run_events::{Name, NoMemory};
use slot_plans::Known;
use std::alloc::Global;
use step_journal::Journal;
use step_machine::Node;
use test_kit::Fault;

/// The format of what the nodes send, by the program and the number of nodes; if there was no
/// memory for it, it's made again.
fn layout_of(alloc: Global, journal: &Journal<Known>) -> Result<Layout, NoMemory>
    ensures { IfOk result (λ layout. layout
        ≡ format_of journal.now.log.program journal.now.log.setup.nodes) }
{
    let book = journal.book();
    let program = book.program();
    let nodes = book.setup().nodes;
    match Layout::of(alloc, program, nodes) {
        Ok(layout) => Ok(layout),
        Err(_) => Layout::of(alloc, program, nodes),
    }
}

/// The frame that the bytes spell, or their first fault; if there was no memory for the frame's
/// message, they're read again.
fn decoded(alloc: Global, layout: &Layout, bytes: &[u8]) -> Result<Frame, FrameFault>
    ensures found { IfOk result (λ frame. Spells layout.now bytes.now frame) }
    ensures fault { IfErr result (λ e. (e ≡ fault.NoMemory)
        ⊎ (first_fault layout.now bytes.now ≡ Some e)) }
{
    match decode(alloc, layout, bytes) {
        Err(FrameFault::NoMemory) => decode(alloc, layout, bytes),
        answer => answer,
    }
}

/// The frame's name, and behind it the words of its message.
fn tell_frame(frame: &Frame, out: &mut String) -> Result<(), Fault> {
    let name = Name {
        from: frame.from,
        to: frame.to,
        round: frame.round,
        copy: frame.copy,
    };
    out.push_str("sealed")?;
    tell_name(out, name)?;
    for word in frame.message.as_words() {
        write!(out, " {word}")?;
    }
    Ok(())
}

/// What the bytes say in the format of what the nodes send, or the number of their fault.
fn tell_bytes(
    alloc: Global,
    journal: &Journal<Known>,
    bytes: &[u8],
    out: &mut String,
) -> Result<(), Fault> {
    let layout = layout_of(alloc, journal)?;
    match decoded(alloc, &layout, bytes) {
        Ok(frame) => tell_frame(&frame, out),
        Err(FrameFault::NoMemory) => Err(Fault::NoMemory),
        Err(fault) => Ok(write!(out, "fault {}", fault.number())?),
    }
}

/// What the node has for another in its round, as its bytes say it, or `silent`. It isn't sent.
pub fn seal(
    alloc: Global,
    journal: &Journal<Known>,
    node: &mut Node,
    to: u32,
    out: &mut String,
) -> Result<(), Fault>
    requires program { node.old.program ≡ journal.now.log.program }
    requires setup { node.old.setup ≡ journal.now.log.setup }
    ensures { node.new ≡ node.old }
{
    let setup = journal.book().setup();
    if to >= setup.nodes || node.round() > setup.rounds {
        return tell::<NoMemory>(out, Answer::Outside, "");
    }
    let Some(prepared) = prepare(node, to) else {
        return Err(Fault::NoMemory);
    };
    match prepared.into_sealed() {
        Some(sealed) => tell_bytes(alloc, journal, sealed.bytes(), out),
        None => Ok(out.push_str("silent")?),
    }
}
