//! Reports made by hand.
use omission_explainer::{Listed, Report, ReportRow, write_report};
use round_lang::{Identifier, Row, Shape, Ty, Value, ValueSet, VarsBuilder};
use run_events::NoMemory;
use std::alloc::Global;
use std::sync::Arc;
use step_machine::StoredState;
use test_kit::{Fault, nodes};

/// A value of a table.
enum Given {
    Num(u32),
    Bool(bool),
    Set(&'static [u32]),
    Row(&'static [u32]),
}

struct GivenRow {
    round: u32,
    node: u32,
    heard: &'static [u32],
    silent: &'static [u32],
    omitted: &'static [u32],
    state: &'static [Given],
    decision: Option<u32>,
}

/// A report made by hand.
struct Case {
    name: &'static str,
    values: u32,
    names: &'static [&'static str],
    types: &'static [Ty],
    rows: &'static [GivenRow],
    counts: &'static [(u64, u64)],
}

fn values(members: &[u32]) -> ValueSet {
    let mut set = ValueSet::empty();
    for member in members {
        set = set.union(ValueSet::single(64, *member));
    }
    set
}

fn value(alloc: Global, given: &Given) -> Result<Value, NoMemory> {
    Ok(match given {
        Given::Num(number) => Value::Num(*number),
        Given::Bool(flag) => Value::Flag(*flag),
        Given::Set(members) => Value::Set(values(members)),
        Given::Row(entries) => Value::Row(Row::new(entries.to_vec(alloc)?)),
    })
}

impl GivenRow {
    fn row(&self, alloc: Global) -> Result<ReportRow, NoMemory> {
        let mut values = VarsBuilder::new(alloc);
        for given in self.state {
            values.push(&value(alloc, given)?)?;
        }
        let state = values.finish(&Shape::empty())?;
        let shape = Shape::new(alloc, state.kinds())?;
        let state = StoredState::new(alloc, &shape, &state)?;
        Ok(ReportRow {
            round: self.round,
            node: self.node,
            heard: nodes(self.heard),
            silent: nodes(self.silent),
            omitted: nodes(self.omitted),
            state: Arc::new(alloc, state)?,
            decision: self.decision,
        })
    }
}

impl Case {
    fn report(&self, alloc: Global) -> Result<Report, NoMemory> {
        let mut names = Vec::new(alloc);
        for name in self.names {
            let name = Identifier::new(String::from_str(alloc, name)?);
            names.push(name.ok_or(NoMemory)?)?;
        }
        let mut rows = Vec::new(alloc);
        for row in self.rows {
            rows.push(row.row(alloc)?)?;
        }
        Ok(Report {
            values: self.values,
            names: Listed::new(names),
            types: Listed::new(self.types.to_vec(alloc)?),
            rows: Listed::new(rows),
            counts: Listed::new(self.counts.to_vec(alloc)?),
        })
    }
}

static CASES: [Case; 6] = [
    // One of two nodes misses a message.
    Case {
        name: "missed",
        values: 2,
        names: &["x", "seen"],
        types: &[Ty::Num, Ty::Set],
        rows: &[
            GivenRow {
                round: 1,
                node: 0,
                heard: &[0],
                silent: &[],
                omitted: &[1],
                state: &[Given::Num(0), Given::Set(&[0])],
                decision: Some(0),
            },
            GivenRow {
                round: 1,
                node: 1,
                heard: &[0, 1],
                silent: &[],
                omitted: &[],
                state: &[Given::Num(1), Given::Set(&[1, 0])],
                decision: Some(0),
            },
        ],
        counts: &[(3, 1), (3, 1)],
    },
    // Every form of a value.
    Case {
        name: "values",
        values: 2,
        names: &[
            "x", "proper", "locks", "lists", "prop", "got", "acks", "done",
        ],
        types: &[
            Ty::Num,
            Ty::Set,
            Ty::Row,
            Ty::Row,
            Ty::Set,
            Ty::Bool,
            Ty::Num,
            Ty::Set,
        ],
        rows: &[
            GivenRow {
                round: 1,
                node: 1,
                heard: &[],
                silent: &[0, 1, 2],
                omitted: &[],
                state: &[
                    Given::Num(1),
                    Given::Set(&[1]),
                    Given::Row(&[0, 0]),
                    Given::Row(&[0, 0]),
                    Given::Set(&[]),
                    Given::Bool(false),
                    Given::Num(0),
                    Given::Set(&[]),
                ],
                decision: None,
            },
            GivenRow {
                round: 6,
                node: 1,
                heard: &[1],
                silent: &[0, 2],
                omitted: &[],
                state: &[
                    Given::Num(1),
                    Given::Set(&[0, 1]),
                    Given::Row(&[2, 1]),
                    Given::Row(&[0, 7]),
                    Given::Set(&[0]),
                    Given::Bool(true),
                    Given::Num(10),
                    Given::Set(&[1]),
                ],
                decision: Some(1),
            },
        ],
        counts: &[(0, 0), (24, 6)],
    },
    // The largest of all.
    Case {
        name: "largest",
        values: 64,
        names: &["longest_name_of_a_variable_there", "s"],
        types: &[Ty::Num, Ty::Set],
        rows: &[GivenRow {
            round: 4096,
            node: 15,
            heard: &[9, 10, 15],
            silent: &[2],
            omitted: &[0, 1, 3, 4, 5, 6, 7, 8, 11, 12, 13, 14],
            state: &[Given::Num(4_294_967_295), Given::Set(&[63, 10, 0])],
            decision: Some(63),
        }],
        counts: &[(18_446_744_073_709_551_615, 4096)],
    },
    // Entries from K on aren't printed.
    Case {
        name: "entries",
        values: 3,
        names: &["r"],
        types: &[Ty::Row],
        rows: &[GivenRow {
            round: 1,
            node: 0,
            heard: &[0],
            silent: &[],
            omitted: &[],
            state: &[Given::Row(&[0, 5, 12, 8])],
            decision: None,
        }],
        counts: &[],
    },
    // As many variables as names, if the lists differ in length.
    Case {
        name: "lengths",
        values: 2,
        names: &["a", "b", "c"],
        types: &[Ty::Num, Ty::Bool],
        rows: &[GivenRow {
            round: 1,
            node: 0,
            heard: &[],
            silent: &[],
            omitted: &[0],
            state: &[Given::Num(1)],
            decision: None,
        }],
        counts: &[],
    },
    Case {
        name: "empty",
        values: 2,
        names: &[],
        types: &[],
        rows: &[],
        counts: &[],
    },
];

/// The report of this name.
pub fn report(alloc: Global, name: &str) -> Result<Report, Fault> {
    for case in &CASES {
        if case.name == name {
            return Ok(case.report(alloc)?);
        }
    }
    Err(Fault::Unreadable)
}

/// The text of a report.
pub fn text_of(alloc: Global, report: &Report) -> Result<Vec<u8>, Fault> {
    let mut text = Vec::new(alloc);
    write_report(report, &mut text)?;
    Ok(text)
}

/// Prints the report of this name.
pub fn print(alloc: Global, name: &str, out: &mut String) -> Result<(), Fault> {
    let report = report(alloc, name)?;
    let text = text_of(alloc, &report)?;
    match std::str::from_utf8(&text) {
        Ok(text) => out.push_str(text)?,
        Err(_) => out.push_str("NOT UTF-8")?,
    }
    Ok(())
}
