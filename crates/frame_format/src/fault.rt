//! Why bytes are no frame.
ghost use Rattle.std.specs.Prelude.{◌≡◌};
ghost use Rattle.frame_format.specs.FaultNumbers.{fault_number};

use run_events::NoMemory;
use std::fmt;

/// Why bytes are no frame of a layout; the first that stands is answered, in the order Short,
/// BadMark, BadVersion, BadNode, BadRound, BadPosition, BadCopy, BadLength, BadField.
#[derive(Clone, Copy, PartialEq, Eq, Debug)]
pub enum FrameFault {
    /// There are fewer bytes than a header has.
    Short,
    /// The first byte isn't the mark of a frame.
    BadMark,
    /// The version is neither 1 nor 2.
    BadVersion,
    /// A node is none of the layout's.
    BadNode,
    /// The round is 0 or above 4,096.
    BadRound,
    /// The position in the period isn't that of the round.
    BadPosition,
    /// The copy is above 3.
    BadCopy,
    /// The number of fields, their length or that of the bytes isn't that of the round's message.
    BadLength,
    /// A field, counted from 0, is a truth value of another byte than 0 and 1, or a set with a bit
    /// from K up; it's the first such field.
    BadField(u8),
    NoMemory,
}

impl FrameFault {
    /// The number by which the fault is reported.
    pub fn number(self) -> u32
        ensures { result ≡ fault_number self }
    {
        match self {
            FrameFault::Short => 1,
            FrameFault::BadMark => 2,
            FrameFault::BadVersion => 3,
            FrameFault::BadNode => 4,
            FrameFault::BadRound => 5,
            FrameFault::BadPosition => 6,
            FrameFault::BadLength => 7,
            FrameFault::BadField(_) => 8,
            FrameFault::NoMemory => 9,
            FrameFault::BadCopy => 10,
        }
    }
}

impl fmt::Display for FrameFault {
    fn fmt<W: fmt::Write>(&self, f: &mut fmt::Formatter<W>) -> fmt::Result {
        match self {
            FrameFault::Short => write!(f, "the bytes are too few for a frame"),
            FrameFault::BadMark => write!(f, "the first byte isn't a frame's"),
            FrameFault::BadVersion => write!(f, "the version is unknown"),
            FrameFault::BadNode => write!(f, "a node isn't in the run"),
            FrameFault::BadRound => write!(f, "the round is out of range"),
            FrameFault::BadPosition => write!(f, "the position isn't that of the round"),
            FrameFault::BadCopy => write!(f, "the copy is above 3"),
            FrameFault::BadLength => write!(f, "the length isn't that of the message"),
            FrameFault::BadField(field) => write!(f, "field {field} has a bad value"),
            FrameFault::NoMemory => write!(f, "no memory"),
        }
    }
}

impl From<NoMemory> for FrameFault {
    ghost use Rattle.std.specs.Prelude.{◌≡◌};
    ghost use Rattle.frame_format.specs.declared.fault.FrameFault.TheVariants as fault;

    ghost from_gives = { λ _ e. e ≡ fault.NoMemory };

    fn from(_error: NoMemory) -> FrameFault {
        FrameFault::NoMemory
    }
}
