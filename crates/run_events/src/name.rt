//! How the messages of a run are named.
ghost use Rattle.std.specs.Prelude.{◌≡◌};
ghost use Rattle.run_events.specs.Names.{original};

/// The name of a message: sender, receiver, round (from 1), and which copy of it. Copy 0 is what
/// the sender's slot makes; the network makes the others, up to [`MAX_COPY`](crate::MAX_COPY).
#[derive(Clone, Copy, PartialEq, Eq, Debug)]
pub struct Name {
    pub from: u32,
    pub to: u32,
    pub round: u32,
    pub copy: u32,
}

impl Name {
    /// The message's copy 0.
    pub fn original(self) -> Name
        ensures { result ≡ original self }
    {
        Name { copy: 0, ..self }
    }
}
