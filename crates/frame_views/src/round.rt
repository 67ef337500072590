//! The frames of one message: to every node, and its further copies.
ghost use Rattle.std.specs.Prelude.{◌≡◌, ◌-◌, ◌*◌, ◌<◌, ◌≤◌, length};
ghost use Rattle.run_events.specs.Limits.{max_copy, max_rounds};
ghost use Rattle.frame_format.specs.declared.frame.Frame.{Frame};
ghost use Rattle.frame_format.specs.declared.version.FrameVersion.TheVariants.{V2};
ghost use Rattle.frame_format.specs.Formats.{kinds_at, Format};
ghost use Rattle.frame_format.specs.Spelling.{AreOf, Spells};
ghost use Rattle.frame_views.specs.Writing.{frame_size, AreAddressed, AreToAll};

use crate::parts::split_field;
use crate::writing::write_frame;
use frame_format::Layout;
use round_lang::Message;

/// Writes a message as frames of version 2 to all nodes, one behind the other, each of
/// `Layout::len(round)` bytes. The sender is below the layout's number of nodes, the round is 1 to
/// 4,096, and the message is one of the round's block.
pub fn write_to_all(layout: &Layout, from: u32, round: u32, message: &Message, bytes: &mut [u8])
    requires from { from < layout.now.nodes }
    requires first { 1 ≤ round }
    requires last { round ≤ max_rounds }
    requires message { AreOf layout.now.values (kinds_at layout.now round) message.now }
    requires room { length bytes.old ≡ layout.now.nodes * frame_size layout.now round }
    ensures { AreToAll layout.now from round message.now 0 bytes.new }
{
    let (first, others) = split_field(bytes, layout.len(round));
    write_frame(layout, from, 0, round, 0, message, first);
    address(first, 1, layout.nodes(), others);
}

/// Copies a frame for a node and for those after it, of so many, each with its receiver.
fn address(frame: &[u8], to: u32, nodes: u32, bytes: &mut [u8])
    requires long { 4 ≤ length frame.now }
    requires few { nodes ≤ 64 }
    requires room { length bytes.old ≡ (nodes - to) * length frame.now }
    ensures { AreAddressed nodes frame.now to bytes.new }
{
    if to < nodes {
        let (copy, others) = split_field(bytes, frame.len());
        copy.copy_from_slice(frame);
        copy[3] = to as u8;
        address(frame, to + 1, nodes, others);
    }
}

/// Makes a frame of version 2 another copy of its message, 0 to 3.
pub fn write_copy(copy: u32, bytes: &mut [u8])
    requires copy { copy ≤ max_copy }
    requires room { 13 ≤ length bytes.old }
    ensures { (s : Format) (f : Frame) → Spells s bytes.old f → f.version ≡ V2
        → Spells s bytes.new (record f { copy = copy }) }
{
    bytes[12] = copy as u8;
}
