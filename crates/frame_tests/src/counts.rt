//! How many of many texts are frames.
use crate::showing::show_read;
use frame_format::{FrameFault, Layout};
use frame_views::FrameView;
use std::alloc::Global;
use test_kit::Fault;

/// How many texts are frames, how many have the fault of each number, and on how many `decode` and
/// the view differ.
#[derive(Drop, Default)]
struct Counts {
    frames: u32,
    faults: [u32; 11],
    differing: u32,
}

fn one_more(count: &mut u32) {
    *count = count.saturating_add(1);
}

impl Counts {
    /// Counts the bytes.
    fn add(&mut self, alloc: Global, layout: &Layout, bytes: &[u8]) -> Result<(), Fault> {
        match FrameView::parse(layout, bytes) {
            Ok(_) => one_more(&mut self.frames),
            Err(fault) => self.add_fault(fault),
        }
        let mut told = String::new(alloc);
        show_read(alloc, layout, bytes, &mut told)?;
        if told.contains("but") {
            one_more(&mut self.differing);
        }
        Ok(())
    }

    fn add_fault(&mut self, fault: FrameFault) {
        if let Some(count) = self.faults.get_mut(fault.number() as usize) {
            one_more(count);
        }
    }

    /// The numbers that aren't 0.
    fn show(&self, out: &mut String) -> Result<(), Fault> {
        write!(out, "frames {}", self.frames)?;
        for (number, count) in self.faults.iter().enumerate() {
            if *count > 0 {
                write!(out, ", fault {number}: {count}")?;
            }
        }
        if self.differing > 0 {
            write!(out, ", differing {}", self.differing)?;
        }
        Ok(())
    }
}

/// Counts all beginnings of the bytes, from none of them to the whole.
pub fn count_beginnings(
    alloc: Global,
    layout: &Layout,
    bytes: &[u8],
    out: &mut String,
) -> Result<(), Fault> {
    let mut counts = Counts::default();
    for len in 0..bytes.len() {
        counts.add(alloc, layout, &bytes[..len])?;
    }
    counts.add(alloc, layout, bytes)?;
    counts.show(out)
}

/// Counts the bytes with each one of them set to each value.
pub fn count_changes(
    alloc: Global,
    layout: &Layout,
    mut bytes: Vec<u8>,
    out: &mut String,
) -> Result<(), Fault> {
    let mut counts = Counts::default();
    for at in 0..bytes.len() {
        let kept = bytes[at];
        for value in 0..=255 {
            bytes[at] = value;
            counts.add(alloc, layout, &bytes)?;
        }
        bytes[at] = kept;
    }
    counts.show(out)
}
