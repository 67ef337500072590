//! The frames that a node holds, read where they lie.
ghost use Rattle.std.specs.Prelude.{◌≤◌, [], ◌∷◌, length, IfOk};
ghost use Rattle.run_events.specs.Limits.{max_nodes};
ghost use Rattle.frame_views.specs.Inboxes.{AreFrames};

use crate::acts::bytes_of;
use crate::showing::show_view;
use bytes::Bytes;
use frame_format::{Layout, first_fault};
use frame_views::InboxView;
use run_events::MAX_NODES;
use std::alloc::Global;
use test_kit::Fault;

/// The frames of a text, with commas between them and `-` for none, of senders 0 and up.
fn held_in(alloc: Global, layout: &Layout, text: &str) -> Result<Vec<Option<Bytes>>, Fault>
    ensures few { IfOk result (λ held. length held.items ≤ max_nodes) }
    ensures frames { IfOk result (λ held. AreFrames layout.now held.items) }
{
    let mut held = Vec::new(alloc);
    for part in text.split(',') {
        if held.len() == MAX_NODES as usize {
            return Err(Fault::Unreadable);
        }
        held.push(frame_in(alloc, layout, part.trim())?)?;
    }
    Ok(held)
}

/// The frame of a text, none if it is `-`.
fn frame_in(alloc: Global, layout: &Layout, text: &str) -> Result<Option<Bytes>, Fault>
    ensures { IfOk result (λ one. AreFrames layout.now (one ∷ [])) }
{
    if text == "-" {
        return Ok(None);
    }
    let bytes = Bytes::from_vec(bytes_of(alloc, text)?)?;
    match first_fault(layout, bytes.as_slice()) {
        None => Ok(Some(bytes)),
        Some(_) => Err(Fault::Unreadable),
    }
}

/// Each sender that holds a frame, and its frame.
pub fn show_inbox(
    alloc: Global,
    layout: &Layout,
    text: &str,
    out: &mut String,
) -> Result<(), Fault> {
    let held = held_in(alloc, layout, text)?;
    for (sender, frame) in InboxView::new(layout, &held) {
        write!(out, "[{sender}] ")?;
        show_view(layout, &frame, out)?;
    }
    Ok(())
}
