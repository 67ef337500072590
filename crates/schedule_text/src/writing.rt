//! Writing a schedule's text.
ghost use Rattle.std.specs.Prelude.{◌≡◌, ◌+◌, ◌<◌, ◌≤◌, ◌∷◌, [], ◌++◌, length, All, IfOk, OnOk};
ghost use Rattle.std.specs.Fmt.{decimal};
ghost use Rattle.std.specs.List.{flat_map};
ghost use Rattle.std.specs.Str.{IsUtf8};
ghost use Rattle.std.specs.String.{string_bytes};
ghost use Rattle.schedule_text.specs.Small.{IsSmall, IsSmallEvent, IsSmallName, IsSmallPlan};
ghost use Rattle.schedule_text.specs.Small.{IsSmallSetup};
ghost use Rattle.schedule_text.specs.Texts.{Says, max_text};
ghost use Rattle.schedule_text.specs.Writing.{event_line, header_lines, inputs_line, line_text};
ghost use Rattle.schedule_text.specs.Writing.{copy_ending, line, name_line, number_line};
ghost use Rattle.schedule_text.specs.Writing.{plan_line, text_of};
ghost use Rattle.short_text.specs.Short.{room};

use round_meaning::Setup;
use run_events::{Event, Name, NoMemory, PlanKind, StoredEvent};
use short_text::{ROOM, ShortText, push_number_and};
use simdutf8::basic::from_utf8;
use std::alloc::Global;

/// How many bytes of room an event's line is given. It has 52 at most, but its last number is
/// written only if there is room for 20 digits.
const LINE: usize = 64;

/// The text of a schedule, with no comments, however long it grows. Where the setup has an input
/// and the text isn't longer than `MAX_TEXT`, it says just this, and so is read back as the same.
#[tactic(auto, unfolding(crate::specs::Writing::text_of))]
pub fn write_schedule(
    alloc: Global,
    setup: &Setup,
    plan: PlanKind,
    events: &[Event],
) -> Result<String, NoMemory>
    ensures spelled { IfOk result (λ text. string_bytes text ≡ text_of setup.now plan events.now) }
    ensures read_back { IfOk result (λ text. 0 < length setup.now.inputs
        → length (string_bytes text) ≤ max_text
        → Says (string_bytes text) setup.now plan events.now) }
{
    let mut text = String::new(alloc);
    write_header(&mut text, setup, plan)?;
    write_events(&mut text, events)?;
    Ok(text)
}

fn write_events(text: &mut String, events: &[Event]) -> Result<(), NoMemory>
    ensures spelled { OnOk result (string_bytes text.new
        ≡ string_bytes text.old ++ flat_map (λ e. line_text (event_line e)) events.now) }
    ensures small { OnOk result (All IsSmallEvent events.now) }
{
    let mut lines = ShortText::new();
    for event in events {
        make_room(&mut lines, text)?;
        push_event(*event, &mut lines);
    }
    push_lines(&lines, text)
}

/// The text of a schedule, as [`write_schedule`] writes it, of events that are stored in few bytes.
#[tactic(auto, unfolding(crate::specs::Writing::text_of))]
pub fn write_stored_schedule(
    alloc: Global,
    setup: &Setup,
    plan: PlanKind,
    events: &[StoredEvent],
) -> Result<String, NoMemory>
    ensures spelled { IfOk result (λ text. string_bytes text ≡ text_of setup.now plan events.now) }
    ensures read_back { IfOk result (λ text. 0 < length setup.now.inputs
        → length (string_bytes text) ≤ max_text
        → Says (string_bytes text) setup.now plan events.now) }
{
    let mut text = String::new(alloc);
    write_header(&mut text, setup, plan)?;
    write_stored_events(&mut text, events)?;
    Ok(text)
}

fn write_stored_events(text: &mut String, events: &[StoredEvent]) -> Result<(), NoMemory>
    ensures spelled { OnOk result (string_bytes text.new
        ≡ string_bytes text.old ++ flat_map (λ e. line_text (event_line e)) events.now) }
    ensures small { OnOk result (All IsSmallEvent events.now) }
{
    let mut lines = ShortText::new();
    for stored in events {
        make_room(&mut lines, text)?;
        push_event(stored.event(), &mut lines);
    }
    push_lines(&lines, text)
}

/// Makes room for a line: if too little is left, the lines so far are added to the text.
#[inline]
fn make_room(lines: &mut ShortText, text: &mut String) -> Result<(), NoMemory>
    requires { IsUtf8 lines.old }
    ensures same { OnOk result
        (string_bytes text.new ++ lines.new ≡ string_bytes text.old ++ lines.old) }
    ensures utf8 { OnOk result (IsUtf8 lines.new) }
    ensures room { OnOk result (length lines.new + line ≤ room) }
{
    if lines.len() > ROOM - LINE {
        push_lines(lines, text)?;
        lines.clear();
    }
    Ok(())
}

/// Adds lines to a text.
fn push_lines(lines: &ShortText, text: &mut String) -> Result<(), NoMemory>
    requires { IsUtf8 lines.now }
    ensures { OnOk result (string_bytes text.new ≡ string_bytes text.old ++ lines.now) }
{
    match from_utf8(lines.as_slice()) {
        Ok(part) => {
            text.push_str(part)?;
            Ok(())
        }
        Err(_) => unreachable!(),
    }
}

fn write_header(text: &mut String, setup: &Setup, plan: PlanKind) -> Result<(), NoMemory>
    ensures spelled { OnOk result (string_bytes text.new
        ≡ string_bytes text.old ++ flat_map line_text (header_lines setup.now plan)) }
    ensures small { OnOk result (IsSmallSetup setup.now × IsSmallPlan plan) }
{
    write_number(text, "nodes ", setup.nodes)?;
    write_number(text, "faults ", setup.faults)?;
    write_inputs(text, setup.inputs.as_slice())?;
    write_number(text, "rounds ", setup.rounds)?;
    write_plan(text, plan)
}

/// The line of this beginning and a number.
fn write_number(text: &mut String, start: &str, number: u32) -> Result<(), NoMemory>
    ensures spelled { OnOk result (string_bytes text.new
        ≡ string_bytes text.old ++ line_text (number_line start.now number)) }
    ensures small { IsSmall number }
{
    text.push_str(start)?;
    write!(text, "{number}")?;
    text.push('\n')?;
    Ok(())
}

fn write_inputs(text: &mut String, inputs: &[u32]) -> Result<(), NoMemory>
    ensures spelled { OnOk result (string_bytes text.new
        ≡ string_bytes text.old ++ line_text (inputs_line inputs.now)) }
    ensures small { OnOk result (All IsSmall inputs.now) }
{
    text.push_str("inputs")?;
    for input in inputs {
        write!(text, " {input}")?;
    }
    text.push_str("\n")?;
    Ok(())
}

fn write_plan(text: &mut String, plan: PlanKind) -> Result<(), NoMemory>
    ensures spelled { OnOk result (string_bytes text.new
        ≡ string_bytes text.old ++ line_text (plan_line plan)) }
    ensures small { IsSmallPlan plan }
{
    match plan {
        PlanKind::Known(delta) => write_number(text, "plan known ", delta),
        PlanKind::Growing => {
            text.push_str("plan growing\n")?;
            Ok(())
        }
    }
}

/// Appends an event's line.
#[inline(always)]
fn push_event(event: Event, lines: &mut ShortText)
    requires { length lines.old + line ≤ room }
    ensures spelled { lines.new ≡ lines.old ++ line_text (event_line event) }
    ensures small { IsSmallEvent event }
{
    match event {
        Event::Step(node) => {
            lines.push_array(b"step ");
            push_number_and(u64::from(node), b'\n', lines);
        }
        Event::Release(name) => push_name(b"release ", name, lines),
        Event::Drop(name) => push_name(b"drop ", name, lines),
        Event::Copy(name) => push_whole_name(b"copy ", name, lines),
    }
}

/// Appends the line of this beginning and a message's name, of which a copy 0 is left out.
#[inline(always)]
fn push_name<const N: usize>(start: &[u8; N], name: Name, lines: &mut ShortText)
    requires start { length start.now ≤ 8 }
    requires room { length lines.old + line ≤ room }
    ensures spelled { lines.new
        ≡ lines.old ++ line_text (name_line start.now name ++ copy_ending name.copy) }
    ensures small { IsSmallName name }
{
    if name.copy == 0 {
        push_message(start, name, b'\n', lines);
    } else {
        push_whole_name(start, name, lines);
    }
}

/// Appends the line of this beginning and a message's name.
#[inline(never)]
fn push_whole_name<const N: usize>(start: &[u8; N], name: Name, lines: &mut ShortText)
    requires start { length start.now ≤ 8 }
    requires room { length lines.old + line ≤ room }
    ensures spelled { lines.new
        ≡ lines.old ++ line_text (name_line start.now name ++ 32 ∷ decimal name.copy) }
    ensures small { IsSmallName name }
{
    push_message(start, name, b' ', lines);
    push_number_and(u64::from(name.copy), b'\n', lines);
}

/// Appends this beginning, and a message's sender, receiver and round, which are at most 40 bytes,
/// and a byte behind them.
#[inline(always)]
fn push_message<const N: usize>(start: &[u8; N], name: Name, end: u8, lines: &mut ShortText)
    requires start { length start.now ≤ 8 }
    requires room { length lines.old + line ≤ room }
    ensures spelled { lines.new ≡ lines.old ++ (name_line start.now name ++ end ∷ []) }
    ensures small { IsSmallName name }
    ensures short { length lines.new ≤ length lines.old + 41 }
{
    lines.push_array(start);
    push_number_and(u64::from(name.from), b' ', lines);
    push_number_and(u64::from(name.to), b' ', lines);
    push_number_and(u64::from(name.round), end, lines);
}
