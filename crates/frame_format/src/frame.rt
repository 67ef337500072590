//! Frames as values.
use crate::version::FrameVersion;
use round_lang::Message;

/// A message on its way.
#[derive(Drop, Debug)]
pub struct Frame {
    /// The sender.
    pub from: u32,
    /// The receiver.
    pub to: u32,
    /// The round, from 1.
    pub round: u32,
    pub version: FrameVersion,
    /// Which copy of the message it is, 0 to 3.
    pub copy: u32,
    pub message: Message,
}
