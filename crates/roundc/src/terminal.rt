//! How far a search has come, as a line on a terminal that changes.
use command_runs::{Progress, Watch};
use std::alloc::{AllocError, Global};
use std::env;
use std::fmt::Write as _;
use std::io::{IsTerminal, Write};
use std::rt::{Clock, Env};
use std::sync::atomic::{AtomicU64, Ordering};
use std::time::Instant;

/// How many milliseconds a search takes before it has a line.
const FIRST: u64 = 500;

/// How many milliseconds a line stands at least.
const EVERY: u64 = 100;

/// Goes back to where the line begins; what doesn't fit into a narrow window is cut off.
const BEGIN: &str = "\r\x1b[?7l";

/// Clears the rest of the line; from then on long lines go on in the next one again.
const END: &str = "\x1b[K\x1b[?7h";

/// Clears the line.
const ERASE: &str = "\r\x1b[K";

/// Standard error, which shows a line if it's a terminal. The line goes when this value is dropped.
pub struct Terminal<'a, R: Clock, E: Write + Copy> {
    clock: &'a R,
    err: E,
    alloc: Global,
    /// When the search began, if it is to be shown.
    began: Option<Instant>,
    /// When the line was last written, in milliseconds from then on; 0 if it wasn't.
    written: AtomicU64,
    /// How many transitions the last note told. A command may search several times, and each time
    /// they are counted from 0.
    noted: AtomicU64,
    /// How many transitions were made in all.
    made: AtomicU64,
}

impl<'a, R: Clock + Env + AllocGlobal, E: Write + IsTerminal + Copy> Terminal<'a, R, E> {
    pub fn new(rt: &'a R, err: E) -> Terminal<'a, R, E> {
        let began = if err.is_terminal() && !is_dumb(rt) {
            Instant::now(rt).ok()
        } else {
            None
        };
        Terminal {
            clock: rt,
            err,
            alloc: rt.alloc(),
            began,
            written: AtomicU64::new(0),
            noted: AtomicU64::new(0),
            made: AtomicU64::new(0),
        }
    }
}

/// Whether the terminal knows no more than letters and line ends.
fn is_dumb<R: Env + AllocGlobal>(rt: &R) -> bool {
    match env::var(rt, "TERM") {
        Ok(name) => name.as_str() == "dumb",
        Err(_) => true,
    }
}

impl<'a, R: Clock, E: Write + Copy> Terminal<'a, R, E> {
    /// The milliseconds since the search began, if the line is to be written anew.
    fn due(&self) -> Option<u64> {
        let elapsed = self.began?.elapsed(self.clock).ok()?;
        let now = u64::try_from(elapsed.as_millis()).ok()?;
        let due = match self.written.load(Ordering::SeqCst) {
            0 => FIRST,
            last => last.saturating_add(EVERY),
        };
        if now < due { None } else { Some(now) }
    }

    /// Counts the transitions since the last note, and answers how many there were in all.
    fn count(&self, transitions: u64) -> u64 {
        let noted = self.noted.swap(transitions, Ordering::SeqCst);
        let more = transitions.checked_sub(noted).unwrap_or(transitions);
        let made = self.made.load(Ordering::SeqCst).saturating_add(more);
        self.made.store(made, Ordering::SeqCst);
        made
    }

    fn print(&self, text: &str) {
        let mut err = self.err;
        // If standard error fails there is nobody left to tell.
        let _ = err.write_all(text.as_bytes());
    }
}

impl<'a, R: Clock, E: Write + Copy> Watch for Terminal<'a, R, E> {
    fn note(&self, progress: Progress) {
        if self.began.is_none() {
            return;
        }
        let made = self.count(progress.transitions);
        let Some(now) = self.due() else {
            return;
        };
        self.written.store(now, Ordering::SeqCst);
        if let Ok(line) = line_of(self.alloc, progress, made, now) {
            self.print(line.as_str());
        }
    }
}

impl<'a, R: Clock, E: Write + Copy> Drop for Terminal<'a, R, E> {
    fn drop(self) {
        if self.written.load(Ordering::SeqCst) > 0 {
            self.print(ERASE);
        }
        let Terminal {
            clock: _,
            err: _,
            alloc: _,
            began: _,
            written: _,
            noted: _,
            made: _,
        } = self;
    }
}

/// The line after so many transitions and milliseconds. It names the case if there are several.
fn line_of(
    alloc: Global,
    progress: Progress,
    made: u64,
    milliseconds: u64,
) -> Result<String, AllocError> {
    let mut line = String::new(alloc);
    line.push_str(BEGIN)?;
    if progress.cases > 1 {
        let case = with_commas(alloc, progress.case)?;
        let cases = with_commas(alloc, progress.cases)?;
        write!(line, "{case} of {cases}  ")?;
    }
    let states = with_commas(alloc, progress.states)?;
    let tenths = made / milliseconds.saturating_mul(100).max(1);
    let (whole, tenth) = (tenths / 10, tenths % 10);
    write!(line, "round {}  {states} states  ", progress.round)?;
    write!(line, "{whole}.{tenth} M transitions/s{END}")?;
    Ok(line)
}

/// A number with commas between its thousands.
fn with_commas(alloc: Global, number: u64) -> Result<String, AllocError> {
    let digits = format!(in alloc; "{number}")?;
    let mut text = String::new(alloc);
    for (place, digit) in digits.as_str().chars().enumerate() {
        let left = digits.len().saturating_sub(place);
        if place > 0 && left % 3 == 0 {
            text.push(',')?;
        }
        text.push(digit)?;
    }
    Ok(text)
}
