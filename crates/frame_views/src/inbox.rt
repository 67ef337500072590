//! The frames that a node holds, in rising order of sender.
ghost use Rattle.std.specs.Prelude.{◌≡◌, ◌≤◌, length};
ghost use Rattle.run_events.specs.Limits.{max_nodes};
ghost use Rattle.frame_views.specs.Inboxes.{inbox_from, AreFrames};

use crate::view::FrameView;
use bytes::Bytes;
use frame_format::Layout;
use std::marker::Model;

/// What is left of an inbox: contracts see the senders that hold a frame, each once and in rising
/// order, with their frames.
#[derive(Drop)]
pub struct InboxView<'a> {
    layout: &'a Layout,
    held: &'a [Option<Bytes>],
    at: usize,
}

impl<'a> Model for InboxView<'a> {
    ghost use Rattle.std.specs.Prelude.{ℕ, List, drop};
    ghost use Rattle.frame_format.specs.declared.frame.Frame.{Frame};
    ghost use Rattle.frame_views.specs.Inboxes.{inbox_from, IsInbox};

    ghost Value = { List (ℕ × Frame) };

    ghost view = { λ a. inbox_from a.layout.now a.at (drop a.at a.held.now) };

    ghost invariant = { λ a. IsInbox a.layout.now a.at a.held.now };
}

impl<'a> InboxView<'a> {
    /// All frames that are held: the one at place i is that of sender i.
    pub fn new(layout: &'a Layout, held: &'a [Option<Bytes>]) -> InboxView<'a>
        requires few { length held.now ≤ max_nodes }
        requires frames { AreFrames layout.now held.now }
        ensures { result ≡ inbox_from layout.now 0 held.now }
    {
        InboxView {
            layout,
            held,
            at: 0,
        }
    }
}

/// Each sender that holds a frame, and its frame.
impl<'a> Iterator for InboxView<'a> {
    ghost use Rattle.std.specs.Iterator.{YieldsFirst, item_count};

    type Item = (u32, FrameView<'a>);

    ghost next_gives = { YieldsFirst (λ rest. rest) };

    ghost remaining = { item_count (λ rest. rest) };

    fn next(&mut self) -> Option<(u32, FrameView<'a>)> {
        while self.at < self.held.len() {
            let sender = self.at;
            self.at += 1;
            if let Some(bytes) = &self.held[sender] {
                return Some((
                    sender as u32,
                    FrameView::over(self.layout, bytes.as_slice()),
                ));
            }
        }
        None
    }
}
