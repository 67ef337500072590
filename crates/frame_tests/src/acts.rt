//! Acts and their answers.
use crate::counts::{count_beginnings, count_changes};
use crate::inbox::show_inbox;
use crate::showing::{show_bytes, show_read};
use crate::writing::show_written;
use frame_format::Layout;
use hex::FromHexError;
use run_events::MAX_ROUNDS;
use std::alloc::Global;
use test_kit::{Fault, cut, number};

/// The frames of a program.
#[derive(Drop)]
pub struct Frames {
    pub layout: Layout,
}

fn hex_fault(error: FromHexError) -> Fault {
    match error {
        FromHexError::OutOfMemory => Fault::NoMemory,
        _ => Fault::Unreadable,
    }
}

/// Bytes in hexadecimal digits, which may have blanks between them.
pub fn bytes_of(alloc: Global, text: &str) -> Result<Vec<u8>, Fault> {
    let mut digits = String::new(alloc);
    for part in text.split(' ') {
        digits.push_str(part)?;
    }
    hex::decode(alloc, digits.as_str()).map_err(hex_fault)
}

impl Frames {
    /// Writes the answer to an act.
    pub fn answer(&self, alloc: Global, act: &str, out: &mut String) -> Result<(), Fault> {
        let (word, rest) = cut(act);
        match word {
            "read" => show_read(alloc, &self.layout, &bytes_of(alloc, rest)?, out),
            "write" => {
                let (copy, rest) = cut(rest);
                let written = show_written(
                    alloc,
                    &self.layout,
                    &bytes_of(alloc, rest)?,
                    number(copy)?,
                )?;
                show_bytes(alloc, &written, out)
            }
            "beginnings" => count_beginnings(alloc, &self.layout, &bytes_of(alloc, rest)?, out),
            "changes" => count_changes(alloc, &self.layout, bytes_of(alloc, rest)?, out),
            "length" => self.show_length(number(rest)?, out),
            "inbox" => show_inbox(alloc, &self.layout, rest, out),
            _ => Err(Fault::Unreadable),
        }
    }

    fn show_length(&self, round: u32, out: &mut String) -> Result<(), Fault> {
        if round == 0 || round > MAX_ROUNDS {
            return Err(Fault::Unreadable);
        }
        Ok(write!(out, "{}", self.layout.len(round))?)
    }
}
