//! Schedules that are read as their events come.
ghost use Rattle.std.specs.Prelude.{◌≡◌, ◌<◌, IfErr, IfOk, IfSome, Ok, OnOk, false, true};
ghost use Rattle.schedule_text.specs.Readers.{AdvancesTo, EndsAs, GoesOn, IsAll, IsBegun};
ghost use Rattle.schedule_text.specs.Readers.{HasReadHeader, IsRefusedAhead, IsRefusedAs, ahead};
ghost use Rattle.schedule_text.specs.Readers.{last_events};
ghost use Rattle.schedule_text.specs.Sources.{IsNoSchedule};

use crate::intake::Intake;
use crate::reading::MAX_TEXT;
use crate::source::{TextFault, TextSource};
use round_meaning::Setup;
use run_events::{Events, PlanKind};
use std::alloc::Global;
use std::marker::Model;

/// How many bytes are read at a time.
const PIECE: usize = 65_536;

/// A schedule that is read piece by piece: first its header, and then its events as they come. So
/// no more of its text is in memory than a piece and the line that goes on in it, unless whole
/// lines aren't UTF-8: then all bytes from these on are kept. No more of its events are than a
/// piece has.
///
/// A text is refused as by [`read_schedule`](crate::read_schedule), but only when all of it was
/// read: bytes that aren't UTF-8 are refused before any line at fault. Of a text that is too long
/// the bytes past the limit aren't looked at, and a character may be cut off there.
#[derive(Drop)]
pub struct ScheduleReader<S: TextSource> {
    source: S,
    intake: Intake,
    count: usize,
    is_ended: bool,
}

impl<S: TextSource> Model for ScheduleReader<S> {
    ghost use Rattle.schedule_text.specs.Readers.{IsSized, Reading};

    ghost Value = { Reading };

    ghost view = { λ r. record {
      left = S.left r.source;
      intake = r.intake;
      count = r.count;
      is_ended = r.is_ended;
    } };

    ghost invariant = { λ r. IsSized r.intake r.count r.is_ended };
}

impl<S: TextSource + Drop> ScheduleReader<S> {
    /// Reads a text up to its header, whose setup and plan are handed out with the reader.
    pub fn open(alloc: Global, source: S) -> Result<(ScheduleReader<S>, Setup, PlanKind), TextFault>
        ensures opened { IfOk result (λ opened. IfSome (S.left source)
            (λ held. HasReadHeader held opened.1 opened.2 opened.0)) }
        ensures refused { IfErr result (IsNoSchedule (S.left source)) }
    {
        let mut reader = ScheduleReader {
            source,
            intake: Intake::new(alloc, 2 * PIECE)?,
            count: 0,
            is_ended: false,
        };
        loop {
            reader.read_piece(alloc)?;
            if let Some((setup, plan)) = reader.intake.header(alloc)? {
                return Ok((reader, setup, plan));
            }
        }
    }

    /// The events that were read last.
    pub fn events(&self) -> &Events
        ensures { result.now ≡ last_events self.now }
    {
        &self.intake.reader.draft.events
    }

    /// Reads the next events, of which there may be none; `false` if the text had already ended.
    /// A reader that has refused its text is of no use.
    pub fn advance(&mut self, alloc: Global) -> Result<bool, TextFault>
        ensures sinks { result ≡ Ok true → ahead self.new < ahead self.old }
        ensures read { result ≡ Ok true → AdvancesTo self.old self.new }
        ensures ended { result ≡ Ok false → IsAll self.old }
        ensures refused { IfErr result (IsRefusedAs self.old) }
    {
        if self.is_ended {
            return Ok(false);
        }
        self.intake.clear_events();
        self.read_piece(alloc)?;
        Ok(true)
    }

    /// Reads the rest of a text whose events aren't wanted.
    pub fn drain(&mut self, alloc: Global) -> Result<(), TextFault>
        ensures read { OnOk result (IsBegun self.old) }
        ensures refused { IfErr result (IsRefusedAs self.old) }
    {
        while self.advance(alloc)? {}
        Ok(())
    }

    /// Reads the next piece, and if the text ends in it, what is left of the text.
    fn read_piece(&mut self, alloc: Global) -> Result<(), TextFault>
        requires { self.old.is_ended ≡ false }
        ensures sinks { OnOk result (ahead self.new < ahead self.old) }
        ensures goes_on { OnOk result (self.new.is_ended ≡ false → GoesOn self.old self.new) }
        ensures ended { OnOk result (self.new.is_ended ≡ true → EndsAs self.old self.new) }
        ensures refused { IfErr result (IsRefusedAhead self.old) }
    {
        // A text that is refused has ended.
        self.is_ended = true;
        let most = PIECE.min(MAX_TEXT + 1 - self.count);
        let before = self.intake.bytes.len();
        self.source.add_next(most, &mut self.intake.bytes)?;
        let added = self.intake.bytes.len() - before;
        self.count += added;
        if self.count > MAX_TEXT {
            return Err(self.intake.too_long());
        }
        if added < most {
            return self.intake.finish(alloc);
        }
        self.intake.take_lines(alloc, before)?;
        self.is_ended = false;
        Ok(())
    }
}
