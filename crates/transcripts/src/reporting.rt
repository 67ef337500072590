//! Printing what became of the commands of a transcript.
use crate::difference::Difference;
use crate::options::Format;
use crate::tested::{Tested, TestedFile};
use run_picture::Escaped;
use serde_json::Value;
use std::alloc::{AllocError, Global};
use std::io;
use std::io::Write;

/// Writes what comes before the first file.
pub(crate) fn write_head<O: Write>(format: Format, out: &mut O) -> io::Result<()> {
    match format {
        Format::Text | Format::Json => Ok(()),
        Format::Junit => {
            writeln!(
                out,
                "<?xml version=\"1.0\" encoding=\"UTF-8\"?>\n<testsuites>"
            )
        }
    }
}

/// Writes what comes after the last file.
pub(crate) fn write_tail<O: Write>(format: Format, out: &mut O) -> io::Result<()> {
    match format {
        Format::Text | Format::Json => Ok(()),
        Format::Junit => writeln!(out, "</testsuites>"),
    }
}

impl TestedFile<'_> {
    /// Writes what became of the commands of a file.
    pub(crate) fn write<O: Write>(
        &self,
        alloc: Global,
        format: Format,
        out: &mut O,
    ) -> io::Result<()> {
        match format {
            Format::Text => self.write_text(alloc, out),
            Format::Json => self.write_json(alloc, out),
            Format::Junit => self.write_junit(alloc, out),
        }
    }

    /// Writes how many commands print something else now.
    pub(crate) fn write_update<O: Write>(&self, out: &mut O) -> io::Result<()> {
        let (all, failed) = (self.commands.len(), self.failed());
        writeln!(out, "{}: {failed} of {all} updated", self.name)
    }

    fn write_text<O: Write>(&self, alloc: Global, out: &mut O) -> io::Result<()> {
        let failed = self.failed();
        let passed = self.commands.len().saturating_sub(failed);
        write!(out, "{}: {passed} passed", self.name)?;
        if failed > 0 {
            write!(out, ", {failed} failed")?;
        }
        writeln!(out)?;
        for tested in self.commands.iter().filter(|tested| !tested.passed) {
            let command = self.transcript.head(&tested.entry);
            writeln!(out, "    line {}: {command}", tested.line())?;
            self.write_difference(alloc, tested, "    ", out)?;
        }
        Ok(())
    }

    /// Writes how what a command printed differs from what it must print.
    fn write_difference<O: Write>(
        &self,
        alloc: Global,
        tested: &Tested,
        indent: &str,
        out: &mut O,
    ) -> io::Result<()> {
        let printed = texts(alloc, &tested.printed)?;
        let difference = Difference {
            wanted: self.transcript.block(tested.entry.wanted),
            printed: printed.as_slice(),
        };
        difference.write(alloc, indent, out)
    }

    fn write_json<O: Write>(&self, alloc: Global, out: &mut O) -> io::Result<()> {
        let name = quoted(alloc, self.name)?;
        for tested in &self.commands {
            let command = quoted(alloc, self.transcript.head(&tested.entry))?;
            write!(out, "{{\"file\":{name},\"line\":{},", tested.line())?;
            write!(out, "\"command\":{command},\"passed\":{},", tested.passed)?;
            write!(out, "\"wanted\":")?;
            write_list(alloc, self.transcript.block(tested.entry.wanted), out)?;
            write!(out, ",\"printed\":")?;
            write_list(alloc, texts(alloc, &tested.printed)?.as_slice(), out)?;
            writeln!(out, "}}")?;
        }
        Ok(())
    }

    fn write_junit<O: Write>(&self, alloc: Global, out: &mut O) -> io::Result<()> {
        let name = Escaped(self.name);
        let (tests, failures) = (self.commands.len(), self.failed());
        write!(out, "<testsuite name=\"{name}\" tests=\"{tests}\" ")?;
        writeln!(out, "failures=\"{failures}\">")?;
        for tested in &self.commands {
            let command = Escaped(self.transcript.head(&tested.entry));
            let line = tested.line();
            write!(
                out,
                "<testcase classname=\"{name}\" name=\"line {line}: {command}\" "
            )?;
            write!(out, "file=\"{name}\" line=\"{line}\"")?;
            if tested.passed {
                writeln!(out, "/>")?;
            } else {
                writeln!(out, ">\n<failure message=\"prints something else\">")?;
                let mut difference = Vec::new(alloc);
                self.write_difference(alloc, tested, "", &mut difference)?;
                for line in String::from_utf8_lossy(alloc, &difference)?
                    .as_str()
                    .lines()
                {
                    writeln!(out, "{}", Escaped(line))?;
                }
                writeln!(out, "</failure>\n</testcase>")?;
            }
        }
        writeln!(out, "</testsuite>")
    }
}

/// A text as a string of JSON.
fn quoted(alloc: Global, text: &str) -> Result<String, AllocError> {
    Value::String(String::from_str(alloc, text)?).to_string(alloc)
}

fn texts(alloc: Global, lines: &[String]) -> Result<Vec<&str>, AllocError> {
    lines
        .iter()
        .map(|line| Ok(line.as_str()))
        .try_collect(alloc)
}

/// Writes lines as an array of JSON.
fn write_list<O: Write>(alloc: Global, lines: &[&str], out: &mut O) -> io::Result<()> {
    let mut comma = "";
    write!(out, "[")?;
    for line in lines {
        write!(out, "{comma}{}", quoted(alloc, line)?)?;
        comma = ",";
    }
    write!(out, "]")
}
