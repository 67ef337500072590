//! Entries of an inbox.
ghost use Rattle.std.specs.Prelude.{◌≡◌, ◌↔◌, IsTrue};
ghost use Rattle.round_meaning.specs.Turn.{IsInbox};

use round_lang::Message;
use std::marker::Model;

/// A message with its sender.
#[derive(Drop, Debug)]
pub struct Received {
    pub from: u32,
    pub message: Message,
}

/// A message with its sender, lent by its holder; contracts see it as a `Received`.
#[derive(Drop)]
pub struct Heard<'a> {
    from: u32,
    message: &'a Message,
}

impl<'a> Model for Heard<'a> {
    ghost use Rattle.round_meaning.specs.declared.received.Received.{Received as OneReceived};

    ghost Value = { OneReceived };

    ghost view = { λ h. record { from = h.from; message = h.message.now } };
}

impl<'a> Heard<'a> {
    pub fn new(from: u32, message: &'a Message) -> Heard<'a>
        ensures { result ≡ record { from = from; message = message.now } }
    {
        Heard { from, message }
    }

    /// The sender.
    pub fn from(&self) -> u32
        ensures { result ≡ self.now.from }
    {
        self.from
    }

    pub fn message(&self) -> &'a Message
        ensures { result.now ≡ self.now.message }
    {
        self.message
    }
}

/// Whether entries are an inbox: in rising order of sender, with one message of a sender at most.
pub fn is_inbox(entries: &[Heard<'_>]) -> bool
    ensures { IsTrue result ↔ IsInbox entries.now }
{
    let mut low = 0;
    for heard in entries {
        if u64::from(heard.from()) < low {
            return false;
        }
        low = u64::from(heard.from()) + 1;
    }
    true
}
