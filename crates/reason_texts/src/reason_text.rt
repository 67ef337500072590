//! Why a copy of a message isn't heard, in words.
use crate::text_lines::TextLines;
use omission_reasons::Reason;
use run_events::Name;
use std::fmt;

/// Why a copy of a message isn't heard.
///
/// It prints as `node 0 missed node 1's message of round 1: sent at line 12, dropped at line 13`,
/// with no line break behind it.
#[derive(Clone, Copy)]
pub struct ReasonText<'a> {
    pub name: Name,
    /// The place in the trace at which the copy was made: of copy 0 that of its sender's step, if
    /// that was taken.
    pub made: Option<usize>,
    pub reason: Reason,
    /// The lines of the schedule's text.
    pub lines: &'a TextLines,
}

impl fmt::Display for ReasonText<'_> {
    fn fmt<W: fmt::Write>(&self, f: &mut fmt::Formatter<W>) -> fmt::Result {
        let Name {
            from,
            to,
            round,
            copy,
        } = self.name;
        write!(
            f,
            "node {to} missed node {from}'s message of round {round}: "
        )?;
        if copy > 0 {
            write!(f, "copy {copy}, ")?;
        }
        if let Some(place) = self.made {
            let verb = if copy == 0 { "sent" } else { "made" };
            write!(f, "{verb} at line {}, ", self.lines.of_event(place))?;
        }
        self.write_reason(f)
    }
}

impl ReasonText<'_> {
    fn write_reason<W: fmt::Write>(&self, f: &mut fmt::Formatter<W>) -> fmt::Result {
        let line = |place| self.lines.of_event(place);
        match self.reason {
            Reason::NotSent => write!(
                f,
                "node {} never took the step that sends it",
                self.name.from
            ),
            Reason::InFlight => write!(f, "never released"),
            Reason::Dropped { place } => write!(f, "dropped at line {}", line(place)),
            Reason::Waiting { released } => {
                write!(f, "released at line {}, and never received", line(released))
            }
            Reason::Late {
                released,
                received,
                round,
            } => write!(
                f,
                "released at line {}, received at line {} in round {round}, which is too late",
                line(released),
                line(received)
            ),
            Reason::Early {
                released,
                received,
                round,
            } => write!(
                f,
                "released at line {}, received at line {} in round {round}, more than three \
                 rounds early",
                line(released),
                line(received)
            ),
        }
    }
}
