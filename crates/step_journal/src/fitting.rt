//! Whether frames are those that a book names.
ghost use Rattle.std.specs.Prelude.{◌≡◌, ◌<◌, ◌≤◌, ◌↔◌, ℕ, IsTrue};
ghost use Rattle.step_book.specs.Log.{mark_in};
ghost use Rattle.step_book.specs.Names.{IsName};
ghost use Rattle.step_book.specs.Buffers.{flying_at};
ghost use Rattle.step_journal.specs.Fits.{Fits, place_among};
ghost use Rattle.run_events.specs.Limits.{max_copy};
ghost use Rattle.step_journal.specs.Fitting.{AreNamed, FitsNode, FliesAs, HoldsAt, IsRecorded};

use run_events::{MAX_COPY, Name};
use slot_plans::Plan;
use step_book::{Book, Buffer, StoredName, Waiting};
use step_machine::SealedView;

/// Whether the buffers hold the frames that the book names.
pub(crate) fn fits<P: Plan>(book: &Book<P>, buffers: &[Buffer]) -> bool
    ensures { IsTrue result ↔ Fits (P.start book.now.plan) book.now.log buffers.now }
{
    let nodes = book.setup().nodes;
    if buffers.len() != nodes as usize {
        return false;
    }
    for node in 0..nodes {
        let buffer = &buffers[node as usize];
        buffer.honest();
        if !fits_node(book, node, buffer) {
            return false;
        }
    }
    true
}

/// Whether a node's buffer holds what the book names for it.
fn fits_node<P: Plan>(book: &Book<P>, node: u32, buffer: &Buffer) -> bool
    requires { node < book.now.log.setup.nodes }
    ensures { IsTrue result ↔ FitsNode (P.start book.now.plan) book.now.log node buffer.now }
{
    buffer.program().same(book.program())
        && buffer.setup().same(book.setup())
        && are_named(book, buffer.waiting(), book.waiting(node))
        && fly(book, buffer, node)
}

/// Whether frames have these names, in this order, and the recorded states.
fn are_named<P: Plan>(book: &Book<P>, frames: &Waiting, names: &[StoredName]) -> bool
    ensures { IsTrue result ↔ AreNamed book.now.log.rows frames.now.items names.now }
{
    for (place, name) in names.iter().enumerate() {
        let Some(frame) = frames.at(place) else {
            return false;
        };
        if !is_named(book, &frame.seen(), name.name()) {
            return false;
        }
    }
    frames.at(names.len()).is_none()
}

/// Whether a frame has this name, and its sender's recorded state.
fn is_named<P: Plan>(book: &Book<P>, frame: &SealedView<'_>, name: Name) -> bool
    ensures { IsTrue result ↔ ((frame.now.name ≡ name) × IsRecorded book.now.log.rows frame.now) }
{
    frame.name() == name && is_recorded(book, frame)
}

/// Whether a frame names the state that is recorded of its sender.
fn is_recorded<P: Plan>(book: &Book<P>, frame: &SealedView<'_>) -> bool
    ensures { IsTrue result ↔ IsRecorded book.now.log.rows frame.now }
{
    book.agrees();
    let name = frame.name();
    if name.from >= book.setup().nodes {
        return false;
    }
    if name.round == 0 || name.copy > MAX_COPY {
        return false;
    }
    match book.states(name.from).get(name.round as usize - 1) {
        Some(state) => state.same(frame.state()),
        None => false,
    }
}

/// Whether the frames in flight to a node are those that the book names.
fn fly<P: Plan>(book: &Book<P>, buffer: &Buffer, node: u32) -> bool
    requires { node < book.now.log.setup.nodes }
    ensures { IsTrue result ↔ ((k : ℕ) → k ≤ max_copy
        → FliesAs
        (P.start book.now.plan) book.now.log buffer.now node k book.now.log.setup.rounds) }
{
    if !flies_as(book, buffer, node, 0) {
        return false;
    }
    if !flies_as(book, buffer, node, 1) {
        return false;
    }
    if !flies_as(book, buffer, node, 2) {
        return false;
    }
    flies_as(book, buffer, node, 3)
}

/// Whether the frames of one copy number are.
fn flies_as<P: Plan>(book: &Book<P>, buffer: &Buffer, node: u32, copy: u32) -> bool
    requires node { node < book.now.log.setup.nodes }
    requires copy { copy ≤ max_copy }
    ensures { IsTrue result ↔ FliesAs (P.start book.now.plan) book.now.log buffer.now node copy
        book.now.log.setup.rounds }
{
    let first = copy as usize * book.setup().nodes as usize;
    if !book.has_copies(copy) && buffer.is_free_from(first) {
        return true;
    }
    for round in 1..book.setup().rounds + 1 {
        for from in 0..book.setup().nodes {
            let name = Name {
                from,
                to: node,
                round,
                copy,
            };
            if !holds(book, buffer, name) {
                return false;
            }
        }
    }
    true
}

/// Whether a buffer has a frame of this name, of its sender's recorded state, just if the book
/// says that it's in flight.
fn holds<P: Plan>(book: &Book<P>, buffer: &Buffer, name: Name) -> bool
    requires { IsName book.now.log.setup name }
    ensures { IsTrue result ↔ HoldsAt book.now.log.rows name
        (mark_in (P.start book.now.plan) book.now.log name)
        (flying_at buffer.now name.round (place_among book.now.log.setup.nodes name)) }
{
    match buffer.flying(name.round, place(book.setup().nodes, name)) {
        Some(frame) => book.is_flying(name) && is_named(book, &frame, name),
        None => !book.is_flying(name),
    }
}

/// The place of a copy of a message among those of its round to its receiver, in a run of so many
/// nodes.
pub fn place(nodes: u32, name: Name) -> usize
    requires { name.copy ≤ max_copy }
    ensures { result ≡ place_among nodes name }
{
    name.copy as usize * nodes as usize + name.from as usize
}
