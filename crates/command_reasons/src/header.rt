//! The header of a run, and what is outside its limits.
use crate::files::{FileKind, ReadFile};
use crate::refusals::unless_refused;
use crate::run_causes::tell_fault;
use crate::sentence::Sentence;
use crate::word_fault::WordFault;
use command_runs::Refusal;
use reason_texts::HEADER_LINES;
use round_meaning::{MAX_FAULTS, Setup};
use run_events::{MAX_DELTA, MAX_NODES, MAX_ROUNDS, PlanKind};
use schedule_text::{Stop, read_header, read_schedule, read_threads};
use std::alloc::Global;
use std::io::Write;

/// The header of a run, and the file that has it.
#[derive(Drop)]
pub(crate) struct Header<'a> {
    pub file: &'a ReadFile<'a>,
    pub setup: Setup,
    pub plan: PlanKind,
    /// The place among the stops of the first one of no node, and its number.
    pub strange_stop: Option<(usize, u32)>,
}

/// A line by how many lines that say something stand before it, and its fault.
pub(crate) type LineFault = (usize, WordFault);

impl<'a> Header<'a> {
    /// The header of the run, if its text can be read.
    pub(crate) fn read(
        alloc: Global,
        file: &'a ReadFile<'a>,
    ) -> Result<Option<Header<'a>>, Refusal> {
        let Some(text) = file.text() else {
            return Ok(None);
        };
        let read = match file.kind {
            FileKind::Header => unless_refused(read_header(alloc, text))?,
            FileKind::Schedule => match unless_refused(read_schedule(alloc, text))? {
                Some(schedule) => Some((schedule.setup, schedule.plan)),
                None => None,
            },
            FileKind::Setup => return Header::of_threads(alloc, file, text),
            _ => None,
        };
        let Some((setup, plan)) = read else {
            return Ok(None);
        };
        Ok(Some(Header {
            file,
            setup,
            plan,
            strange_stop: None,
        }))
    }

    /// The header of a thread setup, if its text can be read.
    fn of_threads(
        alloc: Global,
        file: &'a ReadFile<'a>,
        text: &str,
    ) -> Result<Option<Header<'a>>, Refusal> {
        let Some(threads) = unless_refused(read_threads(alloc, text))? else {
            return Ok(None);
        };
        Ok(Some(Header {
            file,
            strange_stop: first_strange(threads.stops.as_slice(), threads.setup.nodes),
            setup: threads.setup,
            plan: threads.plan,
        }))
    }

    /// The line at fault for a program of so many values, and what is said of it.
    pub(crate) fn fault(&self, values: u32) -> Option<LineFault> {
        if let Some(found) = header_fault(&self.setup, self.plan, values) {
            return Some(found);
        }
        let (place, node) = self.strange_stop?;
        let nodes = self.setup.nodes;
        // The line of the pace is behind the header.
        let index = place.saturating_add(HEADER_LINES + 1);
        Some((
            index,
            WordFault::of_word(1, Sentence::NoNode { node, nodes }),
        ))
    }

    /// Tells the number of the header that is outside its limits, and whether there is one.
    pub(crate) fn tell_fault<O: Write>(
        &self,
        alloc: Global,
        values: u32,
        out: &mut O,
    ) -> Result<bool, Refusal> {
        match self.fault(values) {
            Some(found) => self.tell_line(alloc, found, out),
            None => Ok(false),
        }
    }

    /// Tells what is wrong with a line of the header, and whether the header has that line.
    pub(crate) fn tell_line<O: Write>(
        &self,
        alloc: Global,
        fault: LineFault,
        out: &mut O,
    ) -> Result<bool, Refusal> {
        tell_fault(alloc, self.file, fault, out)
    }
}

/// The first number of a header that is outside its limits. The program has so many values.
fn header_fault(setup: &Setup, plan: PlanKind, values: u32) -> Option<LineFault> {
    if setup.nodes == 0 || setup.nodes > MAX_NODES {
        return Some(outside(0, "the number of nodes", 1, MAX_NODES));
    }
    if setup.faults > MAX_FAULTS {
        return Some(outside(1, "the number of faults", 0, MAX_FAULTS));
    }
    if let Some(fault) = inputs_fault(setup, values) {
        return Some((2, fault));
    }
    if setup.rounds == 0 || setup.rounds > MAX_ROUNDS {
        return Some(outside(3, "the number of rounds", 1, MAX_ROUNDS));
    }
    match plan {
        PlanKind::Known(delta) if delta == 0 || delta > MAX_DELTA => {
            let sentence = Sentence::Outside {
                what: "D of the plan",
                least: 1,
                most: MAX_DELTA,
            };
            Some((4, WordFault::of_word(2, sentence)))
        }
        _ => None,
    }
}

/// A line whose number is outside its limits.
fn outside(index: usize, what: &'static str, least: u32, most: u32) -> LineFault {
    let sentence = Sentence::Outside { what, least, most };
    (index, WordFault::of_word(1, sentence))
}

/// What is wrong with the inputs.
fn inputs_fault(setup: &Setup, values: u32) -> Option<WordFault> {
    let inputs = setup.inputs.as_slice();
    if inputs.len() != setup.nodes as usize {
        let nodes = setup.nodes;
        let inputs = inputs.len();
        return Some(WordFault::of_line(Sentence::InputCount { inputs, nodes }));
    }
    for (node, input) in inputs.iter().enumerate() {
        if *input >= values {
            let sentence = Sentence::InputTooLarge {
                input: *input,
                values,
            };
            return Some(WordFault::of_word(node.saturating_add(1), sentence));
        }
    }
    None
}

/// The place of the first stop of no node, and the number that it names.
fn first_strange(stops: &[Stop], nodes: u32) -> Option<(usize, u32)> {
    for (place, stop) in stops.iter().enumerate() {
        if stop.node >= nodes {
            return Some((place, stop.node));
        }
    }
    None
}
