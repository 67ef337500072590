//! A report by node and round.
use omission_explainer::{Report, ReportRow, write_report};
use run_events::NoMemory;
use std::alloc::Global;
use std::str::from_utf8;

/// The text of a report.
#[derive(Drop)]
pub struct ReportText {
    bytes: Vec<u8>,
}

impl ReportText {
    pub fn new(alloc: Global, report: &Report) -> Result<ReportText, NoMemory> {
        let mut bytes = Vec::new(alloc);
        match write_report(report, &mut bytes) {
            Ok(()) => Ok(ReportText { bytes }),
            Err(_) => Err(NoMemory),
        }
    }

    pub fn text(&self) -> &str {
        match from_utf8(self.bytes.as_slice()) {
            Ok(text) => text,
            Err(_) => "",
        }
    }
}

/// The rows of a report with the lines of its text, by node and round.
#[derive(Drop)]
pub struct Rows<'a> {
    rows: &'a [ReportRow],
    lines: Vec<&'a str>,
    places: Vec<Vec<usize>>,
}

impl<'a> Rows<'a> {
    /// The rows of the report of a run with so many nodes, whose text this is.
    pub fn new(
        alloc: Global,
        nodes: u32,
        report: &'a Report,
        text: &'a str,
    ) -> Result<Rows<'a>, NoMemory> {
        let mut rows = Rows {
            rows: report.rows.as_slice(),
            lines: Vec::new(alloc),
            places: Vec::new(alloc),
        };
        for line in text.lines() {
            rows.lines.push(line)?;
        }
        for _node in 0..nodes {
            rows.places.push(Vec::new(alloc))?;
        }
        for (place, row) in report.rows.as_slice().iter().enumerate() {
            if let Some(places) = rows.places.get_mut(row.node as usize) {
                places.push(place)?;
            }
        }
        Ok(rows)
    }

    pub fn all(&self) -> &'a [ReportRow] {
        self.rows
    }

    /// The row of a round of a node, if that is closed.
    pub fn of(&self, node: u32, round: u32) -> Option<&'a ReportRow> {
        self.rows.get(self.place(node, round)?)
    }

    /// The line of the report's text for that row.
    pub fn line(&self, node: u32, round: u32) -> Option<&'a str> {
        self.lines.get(self.place(node, round)?).copied()
    }

    /// A node's rows are those of its rounds 1, 2, .. in their order.
    fn place(&self, node: u32, round: u32) -> Option<usize> {
        let before = round.checked_sub(1)? as usize;
        let places = self.places.get(node as usize)?;
        places.get(before).copied()
    }
}
