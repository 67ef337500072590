//! How two lists of lines differ.
use crate::common_lines::CommonLines;
use std::alloc::{AllocError, Global};
use std::io;
use std::io::Write;

/// A line that must be printed, one that was printed, or one that is both.
#[derive(Clone, Copy, Debug, PartialEq, Eq, Drop)]
enum Edit<'d> {
    Both(&'d str),
    Wanted(&'d str),
    Printed(&'d str),
}

/// What a command must print and what it printed.
#[derive(Clone, Copy)]
pub(crate) struct Difference<'d> {
    pub wanted: &'d [&'d str],
    pub printed: &'d [&'d str],
}

impl<'d> Difference<'d> {
    /// Writes the lines that must be printed after `-`, those that were printed after `+`, and
    /// those that are both after a blank. As many lines as possible are both.
    pub(crate) fn write<O: Write>(
        &self,
        alloc: Global,
        indent: &str,
        out: &mut O,
    ) -> io::Result<()> {
        for edit in &self.edits(alloc)? {
            match edit {
                Edit::Both(line) => writeln!(out, "{indent}  {line}")?,
                Edit::Wanted(line) => writeln!(out, "{indent}- {line}")?,
                Edit::Printed(line) => writeln!(out, "{indent}+ {line}")?,
            }
        }
        Ok(())
    }

    /// The lines of both lists, in order.
    fn edits(&self, alloc: Global) -> Result<Vec<Edit<'d>>, AllocError> {
        let common = CommonLines::new(alloc, self.wanted, self.printed)?;
        let mut edits = Vec::new(alloc);
        let (mut from, mut to) = (0usize, 0usize);
        for _ in 0..self.wanted.len().saturating_add(self.printed.len()) {
            let Some(edit) = self.edit_at(&common, from, to) else {
                break;
            };
            match edit {
                Edit::Both(_) => {
                    from = from.saturating_add(1);
                    to = to.saturating_add(1);
                }
                Edit::Wanted(_) => from = from.saturating_add(1),
                Edit::Printed(_) => to = to.saturating_add(1),
            }
            edits.push(edit)?;
        }
        Ok(edits)
    }

    /// The next line, after these many lines of both lists.
    fn edit_at(&self, common: &CommonLines, from: usize, to: usize) -> Option<Edit<'d>> {
        match (self.wanted.get(from), self.printed.get(to)) {
            (None, None) => None,
            (Some(line), None) => Some(Edit::Wanted(line)),
            (None, Some(line)) => Some(Edit::Printed(line)),
            (Some(line), Some(other)) => {
                if *line == *other {
                    Some(Edit::Both(line))
                } else if common.after(from.saturating_add(1), to)
                    >= common.after(from, to.saturating_add(1))
                {
                    Some(Edit::Wanted(line))
                } else {
                    Some(Edit::Printed(other))
                }
            }
        }
    }
}
