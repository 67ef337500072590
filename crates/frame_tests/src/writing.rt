//! Messages that are written as frames.
ghost use Rattle.std.specs.Prelude.{ℕ, List, ◌≤◌};
ghost use Rattle.run_events.specs.Limits.{max_copy};
ghost use Rattle.frame_format.specs.Spelling.{Spells};

use crate::placing::place_frame;
use frame_format::{Frame, FrameFault, Layout, decode, encode};
use frame_views::write_frame;
use run_events::MAX_COPY;
use std::alloc::Global;
use test_kit::Fault;

/// The bytes of a frame's message as a copy of it, or none if the ways of writing differ.
fn written(alloc: Global, layout: &Layout, frame: &Frame, copy: u32) -> Result<Vec<u8>, Fault>
    requires frame { (bytes : List ℕ) × Spells layout.now bytes frame.now }
    requires copy { copy ≤ max_copy }
{
    let message = &frame.message;
    let encoded = encode(
        alloc,
        layout,
        frame.from,
        frame.to,
        frame.round,
        copy,
        message,
    )?;
    let mut bytes = vec![in alloc; 0u8; layout.len(frame.round)]?;
    write_frame(
        layout,
        frame.from,
        frame.to,
        frame.round,
        copy,
        message,
        &mut bytes,
    );
    let mut placed = vec![in alloc; 0xffu8; layout.len(frame.round)]?;
    place_frame(layout, frame, copy, &mut placed);
    if encoded.as_slice() == bytes.as_slice() && placed.as_slice() == bytes.as_slice() {
        Ok(bytes)
    } else {
        Ok(Vec::new(alloc))
    }
}

/// The bytes as `written` gives them, of the frame that bytes spell.
pub fn show_written(
    alloc: Global,
    layout: &Layout,
    bytes: &[u8],
    copy: u32,
) -> Result<Vec<u8>, Fault> {
    if copy > MAX_COPY {
        return Err(Fault::Unreadable);
    }
    match decode(alloc, layout, bytes) {
        Ok(frame) => written(alloc, layout, &frame, copy),
        Err(FrameFault::NoMemory) => Err(Fault::NoMemory),
        Err(_) => Err(Fault::Unreadable),
    }
}
