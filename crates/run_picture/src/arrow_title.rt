//! What is said of an arrow.
use crate::arrow::{Arrow, Standing};
use crate::messages::Fate;
use crate::moment::Moment;
use omission_reasons::Reason;
use reason_texts::{ReasonText, TextLines};
use run_events::Name;
use std::fmt;

/// Whether a copy of a message was heard, and if not why, with the lines of the schedule's text.
#[derive(Clone, Copy)]
pub(crate) struct ArrowTitle<'a> {
    pub arrow: &'a Arrow,
    pub lines: &'a TextLines,
}

impl fmt::Display for ArrowTitle<'_> {
    fn fmt<W: fmt::Write>(&self, f: &mut fmt::Formatter<W>) -> fmt::Result {
        match self.arrow.standing {
            Standing::Missed(reason) => self.write_missed(reason, f),
            Standing::Heard => self.write_heard(f),
            Standing::Spare => self.write_spare(f),
            Standing::Open => self.write_open(f),
        }
    }
}

impl ArrowTitle<'_> {
    fn write_missed<W: fmt::Write>(
        &self,
        reason: Reason,
        f: &mut fmt::Formatter<W>,
    ) -> fmt::Result {
        let text = ReasonText {
            name: self.arrow.name,
            made: Some(self.arrow.copy.made.place),
            reason,
            lines: self.lines,
        };
        write!(f, "{text}")
    }

    fn write_heard<W: fmt::Write>(&self, f: &mut fmt::Formatter<W>) -> fmt::Result {
        let Name {
            from,
            to,
            round,
            ..
        } = self.arrow.name;
        write!(
            f,
            "node {to} heard node {from}'s message of round {round}: "
        )?;
        self.write_course(f)
    }

    fn write_spare<W: fmt::Write>(&self, f: &mut fmt::Formatter<W>) -> fmt::Result {
        let Name {
            from,
            to,
            round,
            copy,
        } = self.arrow.name;
        write!(
            f,
            "node {to} heard another copy of node {from}'s message of round {round} than copy \
             {copy}: "
        )?;
        self.write_course(f)
    }

    fn write_open<W: fmt::Write>(&self, f: &mut fmt::Formatter<W>) -> fmt::Result {
        let Name {
            from,
            to,
            round,
            ..
        } = self.arrow.name;
        write!(
            f,
            "node {from}'s message of round {round} to node {to}, which hasn't closed this round: "
        )?;
        self.write_course(f)
    }

    /// Writes what became of the copy.
    fn write_course<W: fmt::Write>(&self, f: &mut fmt::Formatter<W>) -> fmt::Result {
        self.write_made(f)?;
        match self.arrow.copy.fate {
            Fate::Flying => write!(f, "never released"),
            Fate::Dropped { dropped, row: _ } => {
                let dropped = self.line(dropped);
                write!(f, "dropped at line {dropped}")
            }
            Fate::Waiting { released, row: _ } => {
                let released = self.line(released);
                write!(f, "released at line {released}, and never received")
            }
            Fate::Received {
                released,
                received,
                round,
            } => self.write_received(released, received, round, f),
        }
    }

    fn write_made<W: fmt::Write>(&self, f: &mut fmt::Formatter<W>) -> fmt::Result {
        let sent = self.line(self.arrow.sent);
        write!(f, "sent at line {sent}, ")?;
        if self.arrow.name.copy == 0 {
            return Ok(());
        }
        let copy = self.arrow.name.copy;
        let made = self.line(self.arrow.copy.made);
        write!(f, "copy {copy} made at line {made}, ")
    }

    fn write_received<W: fmt::Write>(
        &self,
        released: Moment,
        received: Moment,
        round: u32,
        f: &mut fmt::Formatter<W>,
    ) -> fmt::Result {
        let released = self.line(released);
        let received = self.line(received);
        write!(
            f,
            "released at line {released}, received at line {received}"
        )?;
        if round == self.arrow.name.round {
            return Ok(());
        }
        write!(f, " in round {round}")
    }

    fn line(&self, moment: Moment) -> usize {
        self.lines.of_event(moment.place)
    }
}
