//! What the network does to a copy of a message, as a book records it.
ghost use Rattle.std.specs.Prelude.{◌≡◌, ◌<◌, IfOk, OnErr};
ghost use Rattle.step_book.specs.Effects.{Drops, MakesCopy, Releases};
ghost use Rattle.step_book.specs.Names.{IsName};

use crate::book::Book;
use crate::mark::Mark;
use crate::notes::{note_answer, note_release};
use run_events::{Event, Name, NoMemory};
use slot_plans::Plan;

impl<P: Plan> Book<P> {
    /// A release by the network: true if a copy went from flight to those that wait.
    #[inline(always)]
    pub fn release(&mut self, name: Name) -> Result<bool, NoMemory>
        requires { IsName self.old.log.setup name }
        ensures ok { IfOk result (λ moved. Releases P.start name moved self.old self.new) }
        ensures err { OnErr result (self.new ≡ self.old) }
    {
        let place = self.place(name);
        if self.is_flying(name) {
            let mark = Mark::Released(self.counted(name.to));
            note_release(
                &mut self.trace,
                &mut self.answers,
                &mut self.mails[name.to as usize],
                name,
            )?;
            self.marks.put(name.copy, place, mark);
            return Ok(true);
        }
        note_answer(
            &mut self.trace,
            &mut self.answers,
            Event::Release(name),
            false,
        )?;
        Ok(false)
    }

    /// A drop by the network: true if a copy was in flight; it's lost.
    pub fn drop_copy(&mut self, name: Name) -> Result<bool, NoMemory>
        requires { IsName self.old.log.setup name }
        ensures ok { IfOk result (λ lost. Drops P.start name lost self.old self.new) }
        ensures err { OnErr result (self.new ≡ self.old) }
    {
        let place = self.place(name);
        if self.is_flying(name) {
            note_answer(&mut self.trace, &mut self.answers, Event::Drop(name), true)?;
            self.marks.put(name.copy, place, Mark::Lost);
            return Ok(true);
        }
        note_answer(&mut self.trace, &mut self.answers, Event::Drop(name), false)?;
        Ok(false)
    }

    /// A copy by the network: true if copy 0 was in flight and this one, 1 to 3, was never made;
    /// it's in flight.
    pub fn make_copy(&mut self, name: Name) -> Result<bool, NoMemory>
        requires name { IsName self.old.log.setup name }
        requires other { 0 < name.copy }
        ensures ok { IfOk result (λ made. MakesCopy P.start name made self.old self.new) }
        ensures err { OnErr result (self.new ≡ self.old) }
    {
        let place = self.place(name);
        if self.can_copy(name) {
            self.marks.reserve(name.copy, place)?;
            note_answer(&mut self.trace, &mut self.answers, Event::Copy(name), true)?;
            self.marks.put(name.copy, place, Mark::Flying);
            return Ok(true);
        }
        note_answer(&mut self.trace, &mut self.answers, Event::Copy(name), false)?;
        Ok(false)
    }
}
