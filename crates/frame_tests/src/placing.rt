//! Frames that are written place by place, as callers of the library do.
ghost use Rattle.std.specs.Prelude.{◌≡◌, ◌+◌, ◌*◌, ◌≤◌, ◌<◌, length, IfSome};
ghost use Rattle.run_events.specs.Limits.{max_copy, max_rounds};
ghost use Rattle.frame_format.specs.Formats.{kinds_at, size, width, IsBlock};

use frame_format::{Frame, Layout};
use frame_views::{FieldMut, FieldsMut, FrameMut};
use round_lang::{Kind, Message};

/// Writes a frame's message as a copy of it, the header last.
pub fn place_frame(layout: &Layout, frame: &Frame, copy: u32, bytes: &mut [u8])
    requires from { frame.now.from < layout.now.nodes }
    requires to { frame.now.to < layout.now.nodes }
    requires first { 1 ≤ frame.now.round }
    requires last { frame.now.round ≤ max_rounds }
    requires copy { copy ≤ max_copy }
    requires room { length bytes.old ≡ 13 + size (kinds_at layout.now frame.now.round) }
{
    let mut places = FrameMut::new(layout, frame.round, bytes);
    let (mut header, fields) = places.parts();
    place_fields(fields, &frame.message);
    header.write(frame.from, frame.to, frame.round, copy);
}

/// Writes the fields of a message, four at most.
fn place_fields(fields: FieldsMut<'_, '_>, message: &Message)
    requires few { fields.values ≤ 64 }
    requires block { IsBlock fields.kinds.now }
    requires room { size fields.kinds.now ≤ length fields.bytes.now }
{
    let Some(fields) = place_first(fields, message, 0) else {
        return;
    };
    let Some(fields) = place_first(fields, message, 1) else {
        return;
    };
    let Some(fields) = place_first(fields, message, 2) else {
        return;
    };
    let _ = place_first(fields, message, 3);
}

/// Writes the first of the places that are left as a field of a message, and gives the others.
fn place_first<'a, 'l>(
    fields: FieldsMut<'a, 'l>,
    message: &Message,
    place: usize,
) -> Option<FieldsMut<'a, 'l>>
    requires few { fields.values ≤ 64 }
    requires block { IsBlock fields.kinds.now }
    requires room { size fields.kinds.now ≤ length fields.bytes.now }
    ensures few { IfSome result (λ rest. rest.values ≤ 64) }
    ensures block { IfSome result (λ rest. IsBlock rest.kinds.now) }
    ensures room { IfSome result (λ rest. size rest.kinds.now ≤ length rest.bytes.now) }
{
    let kind = *fields.kinds.first()?;
    let (mut slot, rest) = fields.split_first()?;
    place_field(&mut slot, kind, message, place);
    Some(rest)
}

/// Writes the field at a place of a message.
fn place_field(slot: &mut FieldMut<'_>, kind: Kind, message: &Message, place: usize)
    requires few { slot.old.values ≤ 64 }
    requires room { length slot.old.bytes.now ≡ width kind }
    requires short { width kind ≤ 2048 }
{
    match kind {
        Kind::Num => slot.put_num(message.num(place)),
        Kind::Flag => slot.put_flag(message.flag(place)),
        Kind::Set => slot.put_set(message.set(place).bits),
        Kind::Row(entries) => place_row(slot, entries, message, place),
    }
}

fn place_row(slot: &mut FieldMut<'_>, entries: usize, message: &Message, place: usize)
    requires few { entries ≤ 512 }
    requires room { length slot.old.bytes.now ≡ 4 * entries }
{
    for entry in 0..entries {
        slot.put_entry(entry as u32, message.entry(place, entry as u32));
    }
}
