//! Frames that are written where they lie.
ghost use Rattle.std.specs.Prelude.{◌≡◌, ◌+◌, ◌*◌, ◌<◌, ◌≤◌, ◌^◌, All, drop, length};
ghost use Rattle.std.specs.List.{flat_map};
ghost use Rattle.run_events.specs.Limits.{max_copy, max_rounds};
ghost use Rattle.byteorder.specs.Endian.{big_bytes};
ghost use Rattle.round_lang.specs.Values.{at, row};
ghost use Rattle.round_lang.specs.Words.{IsSmall};
ghost use Rattle.frame_format.specs.declared.version.FrameVersion.TheVariants.{V2};
ghost use Rattle.frame_format.specs.Formats.{kinds_at, size, width, IsBlock};
ghost use Rattle.frame_format.specs.Spelling.{field, AreOf, IsOf, Spells};

use crate::parts::{FieldMut, FieldsMut, FrameMut, HeaderMut, cut, split_field};
use frame_format::{Layout, width};
use round_lang::{Kind, Message};

/// Writes a message as a frame of version 2 into bytes, `Layout::len(round)` many. The nodes are
/// below the layout's number, the round is 1 to 4,096, the copy 0 to 3, and the message is one of
/// the round's block.
pub fn write_frame(
    layout: &Layout,
    from: u32,
    to: u32,
    round: u32,
    copy: u32,
    message: &Message,
    bytes: &mut [u8],
)
    requires from { from < layout.now.nodes }
    requires to { to < layout.now.nodes }
    requires first { 1 ≤ round }
    requires last { round ≤ max_rounds }
    requires copy { copy ≤ max_copy }
    requires message { AreOf layout.now.values (kinds_at layout.now round) message.now }
    requires room { length bytes.old ≡ 13 + size (kinds_at layout.now round) }
    ensures { Spells layout.now bytes.new (record {
      from = from;
      to = to;
      round = round;
      version = V2;
      copy = copy;
      message = message.now;
    }) }
{
    let frame = FrameMut::new(layout, round, bytes);
    let FrameMut {
        layout,
        round,
        bytes,
    } = frame;
    let (header, fields) = cut(bytes);
    let mut header = HeaderMut::over(layout, round, header);
    let fields = FieldsMut::over(layout, round, fields);
    write_fields(fields, message, 0);
    header.write(from, to, round, copy);
}

/// Writes the fields of a message from a place on into the places that are left.
pub fn write_fields(fields: FieldsMut<'_, '_>, message: &Message, place: usize)
    requires few { fields.values ≤ 64 }
    requires block { IsBlock fields.kinds.now }
    requires within { place + length fields.kinds.now ≤ 8 }
    requires kinds { AreOf fields.values fields.kinds.now (drop place message.now) }
    requires room { length fields.bytes.now ≡ size fields.kinds.now }
    ensures bytes { fields.exit.0.now ≡ flat_map field (drop place message.now) }
    ensures small { All IsSmall (drop place message.now) }
{
    let FieldsMut {
        kinds,
        values,
        bytes,
    } = fields;
    if let Some((kind, kinds)) = kinds.split_first() {
        let (first, rest) = split_field(bytes, width(*kind));
        let mut slot = FieldMut::over(values, first);
        put_field(&mut slot, *kind, message, place);
        let rest = FieldsMut {
            kinds,
            values,
            bytes: rest,
        };
        write_fields(rest, message, place + 1);
    }
}

/// Writes the field at a place of a message.
fn put_field(slot: &mut FieldMut<'_>, kind: Kind, message: &Message, place: usize)
    requires few { slot.old.values ≤ 64 }
    requires value { IsOf slot.old.values kind (at message.now place) }
    requires room { length slot.old.bytes.now ≡ width kind }
    requires short { width kind ≤ 2048 }
    ensures same { slot.new.bytes.ghost_name ≡ slot.old.bytes.ghost_name }
    ensures value { slot.new.bytes.now ≡ field (at message.now place) }
    ensures small { IsSmall (at message.now place) }
{
    match kind {
        Kind::Num => slot.put_num(message.num(place)),
        Kind::Flag => slot.put_flag(message.flag(place)),
        Kind::Set => slot.put_set(message.set(place).bits),
        Kind::Row(entries) => put_row(slot, entries, message, place),
    }
}

/// Writes the row at a place of a message.
fn put_row(slot: &mut FieldMut<'_>, entries: usize, message: &Message, place: usize)
    requires few { entries ≤ 512 }
    requires entries { length (row (at message.now place)) ≡ entries }
    requires room { length slot.old.bytes.now ≡ 4 * entries }
    ensures same { slot.new.bytes.ghost_name ≡ slot.old.bytes.ghost_name }
    ensures value { slot.new.bytes.now ≡ flat_map (big_bytes 4) (row (at message.now place)) }
    ensures small { All (λ e. e < 2 ^ 32) (row (at message.now place)) }
{
    for entry in 0..entries {
        slot.put_entry(entry as u32, message.entry(place, entry as u32));
    }
}
