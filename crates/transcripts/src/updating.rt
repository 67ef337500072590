//! Transcripts with what their commands print.
use crate::tested::{Tested, TestedFile};
use crate::transcript::END;
use std::alloc::{AllocError, Global};

impl TestedFile<'_> {
    /// The text of the transcript, in which each command has what it printed.
    pub(crate) fn updated(&self, alloc: Global) -> Result<String, AllocError> {
        let mut text = String::new(alloc);
        let mut done = 0;
        for tested in &self.commands {
            let entry = &tested.entry;
            // After the line that ends what the command is given.
            let answer = entry.given.end.saturating_add(1);
            self.copy(done, answer, &mut text)?;
            tested.write(&mut text)?;
            done = entry.wanted.end;
            if entry.is_fenced {
                done = done.saturating_add(2);
            }
        }
        self.copy(done, self.transcript.lines.len(), &mut text)?;
        Ok(text)
    }

    /// Adds the lines of the transcript from one place up to another.
    fn copy(&self, first: usize, end: usize, text: &mut String) -> Result<(), AllocError> {
        for line in self.transcript.lines.get(first..end).unwrap_or(&[]) {
            add(text, line)?;
        }
        Ok(())
    }
}

impl Tested {
    /// Adds what the command printed.
    fn write(&self, text: &mut String) -> Result<(), AllocError> {
        let fenced = self.needs_fence();
        if fenced {
            add(text, END)?;
        }
        for line in &self.printed {
            add(text, line.as_str())?;
        }
        if fenced {
            add(text, END)?;
            add(text, END)?;
        }
        Ok(())
    }

    /// Whether a blank line would end what was printed, or its first line would begin a fence.
    fn needs_fence(&self) -> bool {
        let first = self.printed.first();
        self.printed
            .iter()
            .any(|line| line.as_str().trim().is_empty())
            || first.is_some_and(|line| line.as_str() == END)
    }
}

fn add(text: &mut String, line: &str) -> Result<(), AllocError> {
    text.push_str(line)?;
    text.push('\n')
}
