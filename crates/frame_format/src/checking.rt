//! The first fault of bytes that are offered as a frame.
ghost use Rattle.std.specs.Prelude.{◌≡◌, ◌≤◌, length, IfNone, IsNone};
ghost use Rattle.frame_format.specs.Faults.{bad_field, first_fault, has_length, is_bad};
ghost use Rattle.frame_format.specs.Faults.{length_fault, round_fault};
ghost use Rattle.frame_format.specs.Formats.{size, width, IsBlock};
ghost use Rattle.frame_format.specs.Places.{head_at};
ghost use Rattle.frame_format.specs.Reading.{IsFrame, IsReadAs};
ghost use Rattle.frame_format.specs.Spelling.{Spells};
ghost use Rattle.frame_format.specs.declared.frame.Frame.{Frame};

use crate::block::width;
use crate::fault::FrameFault;
use crate::layout::Layout;
use crate::reading::{copy_of, fields_in, from_of, round_of, to_of, version_of};
use byteorder::{BigEndian, ByteOrder};
use round_lang::Kind;
use run_events::{MAX_COPY, MAX_ROUNDS};

/// The first fault of the bytes, none if they spell a frame.
pub fn first_fault(layout: &Layout, bytes: &[u8]) -> Option<FrameFault>
    ensures fault { result ≡ first_fault layout.now bytes.now }
    ensures found { IfNone result (IsFrame layout.now bytes.now) }
    // What is spelled has no fault, and is what the bytes are read as.
    ensures only { (f : Frame) → Spells layout.now bytes.now f → IsReadAs layout.now bytes.now f }
{
    layout.lawful();
    fault_of(layout, bytes)
}

#[tactic(auto, unfolding(crate::specs::Faults::first_fault))]
fn fault_of(layout: &Layout, bytes: &[u8]) -> Option<FrameFault>
    ensures { result ≡ first_fault layout.now bytes.now }
{
    if bytes.len() < version_of(bytes).header_size() {
        return Some(FrameFault::Short);
    }
    if bytes[0] != 0x52 {
        return Some(FrameFault::BadMark);
    }
    if bytes[1] != 1 && bytes[1] != 2 {
        return Some(FrameFault::BadVersion);
    }
    if from_of(bytes) >= layout.nodes() || to_of(bytes) >= layout.nodes() {
        return Some(FrameFault::BadNode);
    }
    round_fault(layout, bytes)
}

/// The first fault of bytes whose beginning and nodes are right.
#[tactic(auto, unfolding(crate::specs::Faults::round_fault))]
fn round_fault(layout: &Layout, bytes: &[u8]) -> Option<FrameFault>
    requires { head_at bytes.now ≤ length bytes.now }
    ensures { result ≡ round_fault layout.now bytes.now }
{
    let round = round_of(bytes);
    if round == 0 || round > MAX_ROUNDS {
        return Some(FrameFault::BadRound);
    }
    if u32::from(bytes[8]) != layout.position(round) {
        return Some(FrameFault::BadPosition);
    }
    if copy_of(bytes) > MAX_COPY {
        return Some(FrameFault::BadCopy);
    }
    length_fault(layout, round, bytes)
}

/// The first fault of bytes whose header is right but for the length.
#[tactic(auto, unfolding(crate::specs::Faults::length_fault))]
fn length_fault(layout: &Layout, round: u32, bytes: &[u8]) -> Option<FrameFault>
    requires { head_at bytes.now ≤ length bytes.now }
    ensures { result ≡ length_fault layout.now round bytes.now }
{
    let kinds = layout.kinds(round);
    if !has_length(kinds.len(), layout.size(round), bytes) {
        return Some(FrameFault::BadLength);
    }
    bad_field(layout.values(), kinds, fields_in(bytes))
}

/// Whether the number of fields, their length and that of the bytes are these.
fn has_length(fields: usize, size: usize, bytes: &[u8]) -> bool
    requires { head_at bytes.now ≤ length bytes.now }
    ensures { result ≡ has_length fields size bytes.now }
{
    usize::from(bytes[9]) == fields
        && usize::from(BigEndian::read_u16(&bytes[10..])) == size
        && fields_in(bytes).len() == size
}

/// The first field that has a bad value.
fn bad_field(values: u32, kinds: &[Kind], bytes: &[u8]) -> Option<FrameFault>
    requires values { values ≤ 64 }
    requires block { IsBlock kinds.now }
    requires room { size kinds.now ≤ length bytes.now }
    ensures { result ≡ bad_field values kinds.now bytes.now 0 }
{
    let mut at = 0;
    for (i, kind) in kinds.iter().enumerate() {
        if is_bad(values, *kind, &bytes[at..]) {
            return Some(FrameFault::BadField(i as u8));
        }
        at += width(*kind);
    }
    None
}

/// Whether the field at the front has a bad value.
fn is_bad(values: u32, kind: Kind, bytes: &[u8]) -> bool
    requires values { values ≤ 64 }
    requires room { width kind ≤ length bytes.now }
    ensures { result ≡ is_bad values kind bytes.now }
{
    match kind {
        Kind::Flag => bytes[0] > 1,
        Kind::Set => values < 64 && BigEndian::read_u64(bytes) >> values != 0,
        Kind::Num | Kind::Row(_) => false,
    }
}
