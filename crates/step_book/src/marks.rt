//! The marks of a run's messages.
ghost use Rattle.std.specs.Prelude.{◌≡◌, ◌<◌, ◌≤◌, ◌↔◌, [], IsTrue, OnOk, length, vec_len};
ghost use Rattle.step_book.specs.declared.mark.Mark.TheVariants.{Unsent};
ghost use Rattle.step_book.specs.Stored.{IsShort};
ghost use Rattle.step_book.specs.Tables.{HasPlace, Puts, SameTable, SameTables, read_at, tables_of};

use crate::mark::{Mark, StoredMark};
use run_events::NoMemory;
use std::alloc::Global;
use std::marker::Model;

/// How many marks a table gets at once.
const MARKS_AHEAD: usize = 256;

/// The marks of all copies of all messages: a table for each copy number, which grows with the
/// rounds, so that those of copies that were never made take no memory.
#[derive(Drop)]
pub(crate) struct Marks {
    alloc: Global,
    tables: Vec<Vec<StoredMark>>,
}

impl Model for Marks {
    ghost use Rattle.std.specs.Prelude.{List};
    ghost use Rattle.step_book.specs.declared.mark.Mark.{Mark};
    ghost use Rattle.step_book.specs.Tables.{tables_of};

    ghost Value = { List (List Mark) };

    ghost view = { λ m. tables_of m.tables.items };
}

impl Marks {
    /// No marks; takes no memory.
    pub(crate) fn new(alloc: Global) -> Marks
        ensures { result ≡ [] }
    {
        Marks {
            alloc,
            tables: Vec::new(alloc),
        }
    }

    /// The mark at a place of a copy's table.
    #[inline(always)]
    pub(crate) fn at(&self, copy: u32, place: usize) -> Mark
        ensures { result ≡ read_at Unsent self.now copy place }
    {
        let Some(table) = self.tables.get(copy as usize) else {
            return Mark::Unsent;
        };
        match table.get(place) {
            Some(stored) => stored.mark(),
            None => Mark::Unsent,
        }
    }

    /// Whether there is a table of a copy: else all its marks are `Unsent`.
    pub(crate) fn has_table(&self, copy: u32) -> bool
        ensures { IsTrue result ↔ (copy < length self.now) }
    {
        (copy as usize) < self.tables.len()
    }

    /// Makes room for a mark.
    #[inline(always)]
    pub(crate) fn reserve(&mut self, copy: u32, place: usize) -> Result<(), NoMemory>
        ensures room { OnOk result (HasPlace self.new copy place) }
        ensures same { SameTables Unsent self.old self.new }
    {
        if self.has_place(copy, place) {
            return Ok(());
        }
        self.grow(copy, place)
    }

    /// Whether a place is in a copy's table.
    #[inline(always)]
    fn has_place(&self, copy: u32, place: usize) -> bool
        ensures { IsTrue result → HasPlace self.now copy place }
    {
        match self.tables.get(copy as usize) {
            Some(table) => place < table.len(),
            None => false,
        }
    }

    /// Makes the table of a copy longer than a place, with some marks ahead. It stands apart, since
    /// that is rare.
    #[inline(never)]
    fn grow(&mut self, copy: u32, place: usize) -> Result<(), NoMemory>
        ensures room { OnOk result (HasPlace self.new copy place) }
        ensures same { SameTables Unsent self.old self.new }
    {
        add_tables(self.alloc, &mut self.tables, copy as usize)?;
        grow(&mut self.tables[copy as usize], place)
    }

    /// Sets a mark that there is room for.
    #[inline(always)]
    pub(crate) fn put(&mut self, copy: u32, place: usize, mark: Mark)
        requires place { HasPlace self.old copy place }
        requires short { IsShort mark }
        ensures { Puts Unsent self.old self.new copy place mark }
    {
        self.tables[copy as usize][place] = StoredMark::new(mark);
    }
}

/// Adds empty tables until the copy has one.
fn add_tables(alloc: Global, tables: &mut Vec<Vec<StoredMark>>, copy: usize) -> Result<(), NoMemory>
    ensures there { OnOk result (copy < vec_len tables.new) }
    ensures same { SameTables Unsent (tables_of tables.old.items) (tables_of tables.new.items) }
{
    while tables.len() <= copy {
        tables.push(Vec::new(alloc))?;
    }
    Ok(())
}

/// Makes a table longer than a place, with some marks ahead.
fn grow(marks: &mut Vec<StoredMark>, place: usize) -> Result<(), NoMemory>
    ensures long { OnOk result (place < vec_len marks.new) }
    ensures same { SameTable Unsent marks.old.items marks.new.items }
{
    let Some(length) = place.checked_add(MARKS_AHEAD) else {
        return Err(NoMemory);
    };
    if marks.len() < length {
        marks.resize(length, StoredMark::new(Mark::Unsent))?;
    }
    Ok(())
}
