//! Frames from bytes.
ghost use Rattle.std.specs.Prelude.{◌⊎◌, ◌≡◌, ◌≤◌, ◌*◌, ◌++◌, [], length, IfOk, IfErr, IfSome};
ghost use Rattle.std.specs.Prelude.{IsErrOf, MatchResult, None, Some};
ghost use Rattle.frame_format.specs.Faults.{first_fault};
ghost use Rattle.frame_format.specs.Formats.{size, width, IsBlock, kinds_at};
ghost use Rattle.frame_format.specs.Reading.{field_at, fields_at, numbers};
ghost use Rattle.frame_format.specs.Spelling.{Spells};
ghost use Rattle.frame_format.specs.declared.frame.Frame.{Frame};

use crate::block::width;
use crate::checking::first_fault;
use crate::fault::FrameFault;
use crate::frame::Frame;
use crate::layout::Layout;
use crate::reading::{copy_of, fields_in, from_of, round_of, to_of, version_of};
use byteorder::{BigEndian, ByteOrder};
use round_lang::{Kind, Message, Row, Shape, Value, ValueSet, VarsBuilder};
use run_events::NoMemory;
use std::alloc::Global;

/// The frame that the bytes spell, or the first fault; NoMemory only if they do spell a frame.
pub fn decode(alloc: Global, layout: &Layout, bytes: &[u8]) -> Result<Frame, FrameFault>
    // What is read is spelled by the bytes.
    ensures found { IfOk result (λ f. Spells layout.now bytes.now f) }
    // What is spelled is read, unless memory was refused.
    ensures only { (f : Frame) → Spells layout.now bytes.now f
        → MatchResult result (λ g. g ≡ f) (λ e. e ≡ FrameFault.NoMemory) }
    // A fault is the first one.
    ensures fault { IfSome (first_fault layout.now bytes.now) (λ e. IsErrOf result e) }
    ensures no_fault { IfErr result (λ e. (e ≡ FrameFault.NoMemory)
        ⊎ (first_fault layout.now bytes.now ≡ Some e)) }
{
    if let Some(fault) = first_fault(layout, bytes) {
        return Err(fault);
    }
    let round = round_of(bytes);
    let message = message_of(alloc, layout, round, fields_in(bytes))?;
    Ok(Frame {
        from: from_of(bytes),
        to: to_of(bytes),
        round,
        version: version_of(bytes),
        copy: copy_of(bytes),
        message,
    })
}

/// The message of a round that the bytes of its fields say.
fn message_of(alloc: Global, layout: &Layout, round: u32, bytes: &[u8]) -> Result<Message, NoMemory>
    requires { size (kinds_at layout.now round) ≤ length bytes.now }
    ensures { IfOk result (λ m. m ≡ fields_at (kinds_at layout.now round) bytes.now) }
{
    let values = values_of(alloc, layout.kinds(round), bytes)?;
    match layout.shape(round) {
        Some(shape) => values.finish(shape),
        None => values.finish(&Shape::empty()),
    }
}

/// The values of fields of these kinds.
fn values_of(alloc: Global, kinds: &[Kind], bytes: &[u8]) -> Result<VarsBuilder, NoMemory>
    requires block { IsBlock kinds.now }
    requires room { size kinds.now ≤ length bytes.now }
    ensures { IfOk result (λ v. v ≡ fields_at kinds.now bytes.now) }
{
    let mut values = VarsBuilder::new(alloc);
    let mut at = 0;
    for kind in kinds {
        let value = field_of(alloc, *kind, &bytes[at..])?;
        values.push(&value)?;
        at += width(*kind);
    }
    Ok(values)
}

/// The value of the field at the front.
fn field_of(alloc: Global, kind: Kind, bytes: &[u8]) -> Result<Value, NoMemory>
    requires { width kind ≤ length bytes.now }
    ensures { IfOk result (λ v. v ≡ field_at kind bytes.now) }
{
    match kind {
        Kind::Num => Ok(Value::Num(BigEndian::read_u32(bytes))),
        Kind::Flag => Ok(Value::Flag(bytes[0] == 1)),
        Kind::Set => Ok(Value::Set(ValueSet {
            bits: BigEndian::read_u64(bytes),
        })),
        Kind::Row(entries) => Ok(Value::Row(row_of(alloc, entries, bytes)?)),
    }
}

/// The row of so many numbers at the front.
fn row_of(alloc: Global, entries: usize, bytes: &[u8]) -> Result<Row, NoMemory>
    requires { 4 * entries ≤ length bytes.now }
    ensures { IfOk result (λ row. row ≡ numbers entries bytes.now) }
{
    let mut row = Vec::with_capacity(alloc, entries)?;
    for i in 0..entries {
        row.push(BigEndian::read_u32(&bytes[4 * i..]))?;
    }
    Ok(Row::new(row))
}
