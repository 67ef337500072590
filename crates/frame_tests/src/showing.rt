//! Frames as texts.
ghost use Rattle.std.specs.Prelude.{◌≤◌};

use frame_format::{Frame, FrameFault, Layout, decode};
use frame_views::{FrameView, RowView};
use round_lang::{Kind, Message, Value};
use std::alloc::Global;
use test_kit::Fault;

pub fn show_bytes(alloc: Global, bytes: &[u8], out: &mut String) -> Result<(), Fault> {
    Ok(out.push_str(hex::encode(alloc, bytes)?.as_str())?)
}

fn show_fault(fault: FrameFault, out: &mut String) -> Result<(), Fault> {
    match fault {
        FrameFault::NoMemory => Err(Fault::NoMemory),
        FrameFault::BadField(field) => Ok(write!(out, "fault 8 at {field}")?),
        fault => Ok(write!(out, "fault {}", fault.number())?),
    }
}

fn show_value(value: &Value, out: &mut String) -> Result<(), Fault> {
    match value {
        Value::Num(number) => write!(out, " num {number}")?,
        Value::Flag(flag) => write!(out, " flag {flag}")?,
        Value::Set(set) => write!(out, " set {}", set.bits)?,
        Value::Row(row) => {
            out.push_str(" row")?;
            for entry in row.as_slice() {
                write!(out, " {entry}")?;
            }
        }
    }
    Ok(())
}

fn show_message(message: &Message, out: &mut String) -> Result<(), Fault> {
    for place in 0..message.len() {
        show_value(&message.value(place)?, out)?;
    }
    Ok(())
}

fn show_frame(frame: &Frame, out: &mut String) -> Result<(), Fault> {
    write!(
        out,
        "from {} to {} round {}",
        frame.from, frame.to, frame.round
    )?;
    write!(
        out,
        " version {} copy {}:",
        frame.version.number(),
        frame.copy
    )?;
    show_message(&frame.message, out)
}

fn show_row(row: &RowView<'_>, entries: usize, out: &mut String) -> Result<(), Fault>
    requires { entries ≤ 64 }
{
    out.push_str(" row")?;
    for value in 0..entries {
        write!(out, " {}", row.at(value as u32))?;
    }
    Ok(())
}

/// A field that is read where it lies.
fn show_field(
    view: &FrameView<'_>,
    place: usize,
    kind: Kind,
    out: &mut String,
) -> Result<(), Fault> {
    match kind {
        Kind::Num => write!(out, " num {}", view.num(place))?,
        Kind::Flag => write!(out, " flag {}", view.flag(place))?,
        Kind::Set => write!(out, " set {}", view.set(place).bits)?,
        Kind::Row(entries) => show_row(&view.row(place), entries.min(64), out)?,
    }
    Ok(())
}

pub fn show_view(layout: &Layout, view: &FrameView<'_>, out: &mut String) -> Result<(), Fault> {
    write!(
        out,
        "from {} to {} round {}",
        view.from(),
        view.to(),
        view.round()
    )?;
    write!(
        out,
        " version {} copy {}:",
        view.version().number(),
        view.copy()
    )?;
    for (place, kind) in layout.kinds(view.round()).iter().enumerate() {
        show_field(view, place, *kind, out)?;
    }
    Ok(())
}

/// What `decode` answers.
fn show_decoded(
    alloc: Global,
    layout: &Layout,
    bytes: &[u8],
    out: &mut String,
) -> Result<(), Fault> {
    match decode(alloc, layout, bytes) {
        Ok(frame) => show_frame(&frame, out),
        Err(FrameFault::NoMemory) => Err(Fault::NoMemory),
        Err(fault) => show_fault(fault, out),
    }
}

/// What a view answers.
fn show_seen(layout: &Layout, bytes: &[u8], out: &mut String) -> Result<(), Fault> {
    match FrameView::parse(layout, bytes) {
        Ok(view) => show_view(layout, &view, out),
        Err(fault) => show_fault(fault, out),
    }
}

/// What both answer, or that they differ.
pub fn show_read(
    alloc: Global,
    layout: &Layout,
    bytes: &[u8],
    out: &mut String,
) -> Result<(), Fault> {
    let mut decoded = String::new(alloc);
    show_decoded(alloc, layout, bytes, &mut decoded)?;
    let mut seen = String::new(alloc);
    show_seen(layout, bytes, &mut seen)?;
    if decoded == seen {
        Ok(out.push_str(decoded.as_str())?)
    } else {
        Ok(write!(out, "{decoded}, but the view says {seen}")?)
    }
}
