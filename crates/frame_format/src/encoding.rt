//! Frames as bytes.
ghost use Rattle.std.specs.Prelude.{◌≡◌, ◌≤◌, ◌<◌, ◌^◌, ◌++◌, All, IfOk, OnOk, length};
ghost use Rattle.std.specs.List.{flat_map};
ghost use Rattle.run_events.specs.Limits.{max_copy, max_rounds};
ghost use Rattle.byteorder.specs.Endian.{big_bytes};
ghost use Rattle.round_lang.specs.Values.{at, row};
ghost use Rattle.round_lang.specs.Words.{IsSmall};
ghost use Rattle.frame_format.specs.Formats.{kinds_at, width, IsBlock};
ghost use Rattle.frame_format.specs.Spelling.{field, AreOf, IsOf, Spells};
ghost use Rattle.frame_format.specs.declared.version.FrameVersion.TheVariants.{V2};

use crate::header::{bytes_of, write_header};
use crate::layout::Layout;
use byteorder::{BigEndian, ByteOrder};
use bytes::Bytes;
use round_lang::{Kind, Message};
use run_events::NoMemory;
use std::alloc::Global;

/// The bytes of a message as a frame of version 2. The nodes are below the layout's number, the
/// round is 1 to 4,096, the copy 0 to 3, and the message is one of the round's block.
pub fn encode(
    alloc: Global,
    layout: &Layout,
    from: u32,
    to: u32,
    round: u32,
    copy: u32,
    message: &Message,
) -> Result<Bytes, NoMemory>
    requires from { from < layout.now.nodes }
    requires to { to < layout.now.nodes }
    requires first { 1 ≤ round }
    requires last { round ≤ max_rounds }
    requires copy { copy ≤ max_copy }
    requires message { AreOf layout.now.values (kinds_at layout.now round) message.now }
    ensures { IfOk result (λ bytes. Spells layout.now bytes (record {
      from = from;
      to = to;
      round = round;
      version = V2;
      copy = copy;
      message = message.now;
    })) }
{
    let mut head = [0; 13];
    write_header(layout, from, to, round, copy, &mut head);
    let mut out = Vec::with_capacity(alloc, layout.len(round))?;
    out.extend_from_slice(&head)?;
    push_fields(&mut out, layout.values(), layout.kinds(round), message)?;
    Ok(Bytes::from_vec(out)?)
}

/// Adds the bytes of a message's fields.
fn push_fields(
    out: &mut Vec<u8>,
    values: u32,
    kinds: &[Kind],
    message: &Message,
) -> Result<(), NoMemory>
    requires block { IsBlock kinds.now }
    requires message { AreOf values kinds.now message.now }
    ensures bytes { OnOk result (out.new.items ≡ out.old.items ++ flat_map field message.now) }
    ensures small { OnOk result (All IsSmall message.now) }
{
    for (place, kind) in kinds.iter().enumerate() {
        push_field(out, values, *kind, message, place)?;
    }
    Ok(())
}

/// Adds the bytes of the field at a place.
fn push_field(
    out: &mut Vec<u8>,
    values: u32,
    kind: Kind,
    message: &Message,
    place: usize,
) -> Result<(), NoMemory>
    requires small { width kind ≤ 2048 }
    requires value { IsOf values kind (at message.now place) }
    ensures bytes { OnOk result (out.new.items ≡ out.old.items ++ field (at message.now place)) }
    ensures small { OnOk result (IsSmall (at message.now place)) }
{
    match kind {
        Kind::Num => push_num(out, message.num(place)),
        Kind::Flag => Ok(out.push(u8::from(message.flag(place)))?),
        Kind::Set => {
            let mut bytes = [0; 8];
            BigEndian::write_u64(&mut bytes, message.set(place).bits);
            Ok(out.extend_from_slice(&bytes)?)
        }
        Kind::Row(entries) => push_row(out, entries, message, place),
    }
}

/// Adds the bytes of the row at a place.
fn push_row(
    out: &mut Vec<u8>,
    entries: usize,
    message: &Message,
    place: usize,
) -> Result<(), NoMemory>
    requires few { entries ≤ 512 }
    requires entries { length (row (at message.now place)) ≡ entries }
    ensures bytes { OnOk result (out.new.items
        ≡ out.old.items ++ flat_map (big_bytes 4) (row (at message.now place))) }
    ensures small { OnOk result (All (λ e. e < 2 ^ 32) (row (at message.now place))) }
{
    for entry in 0..entries {
        push_num(out, message.entry(place, entry as u32))?;
    }
    Ok(())
}

fn push_num(out: &mut Vec<u8>, n: u32) -> Result<(), NoMemory>
    ensures { OnOk result (out.new.items ≡ out.old.items ++ big_bytes 4 n) }
{
    Ok(out.extend_from_slice(&bytes_of(n))?)
}
