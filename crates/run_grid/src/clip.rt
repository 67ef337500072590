//! Texts of which only a beginning may be shown.
use std::fmt;

/// The beginning of a text, and whether that isn't all of it.
#[derive(Clone, Copy)]
pub(crate) struct Clip<'a> {
    text: &'a str,
    is_cut: bool,
}

impl<'a> Clip<'a> {
    /// So many letters of a text at the most, with the dots that stand for the rest.
    pub(crate) fn new(text: &'a str, most: u32) -> Clip<'a> {
        let most = most as usize;
        if text.len() <= most {
            return Clip {
                text,
                is_cut: false,
            };
        }
        match text.get(..most.saturating_sub(1)) {
            Some(beginning) => Clip {
                text: beginning,
                is_cut: true,
            },
            None => Clip {
                text: "",
                is_cut: true,
            },
        }
    }

    /// How many letters it has, a thousand at the most.
    pub(crate) fn letters(&self) -> u32 {
        let letters = self.text.len().min(999) as u32;
        letters.saturating_add(u32::from(self.is_cut))
    }
}

impl fmt::Display for Clip<'_> {
    fn fmt<W: fmt::Write>(&self, f: &mut fmt::Formatter<W>) -> fmt::Result {
        let text = self.text;
        if self.is_cut {
            return write!(f, "{text}\u{2026}");
        }
        write!(f, "{text}")
    }
}
