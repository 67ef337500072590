//! Lists of places in a trace.
ghost use Rattle.std.specs.Prelude.{◌≡◌, ◌++◌, ◌<◌, ◌∷◌, [], OnOk, slice_index_or, vec_len};
ghost use Rattle.step_book.specs.Tables.{PutsAt, SameTable, tables_of};

use run_events::NoMemory;
use std::alloc::Global;
use std::marker::Model;

/// Lists of places in a trace, each under a number. A list that nothing was added to is empty.
#[derive(Drop)]
pub(crate) struct Places {
    alloc: Global,
    lists: Vec<Vec<usize>>,
}

impl Model for Places {
    ghost use Rattle.std.specs.Prelude.{List, ℕ};
    ghost use Rattle.step_book.specs.Tables.{tables_of};

    ghost Value = { List (List ℕ) };

    ghost view = { λ p. tables_of p.lists.items };
}

impl Places {
    /// No places; takes no memory.
    pub(crate) fn new(alloc: Global) -> Places
        ensures { result ≡ [] }
    {
        Places {
            alloc,
            lists: Vec::new(alloc),
        }
    }

    /// Adds a place at the end of a list.
    pub(crate) fn add(&mut self, list: usize, place: usize) -> Result<(), NoMemory>
        ensures { OnOk result (PutsAt [] self.old self.new list
            (slice_index_or self.old list [] ++ place ∷ [])) }
    {
        add_lists(self.alloc, &mut self.lists, list)?;
        self.lists[list].push(place)?;
        Ok(())
    }

    /// The places of a list.
    pub(crate) fn list(&self, list: usize) -> &[usize]
        ensures { result.now ≡ slice_index_or self.now list [] }
    {
        match self.lists.get(list) {
            Some(places) => places,
            None => &[],
        }
    }
}

/// Adds empty lists until there is one with this number.
fn add_lists(alloc: Global, lists: &mut Vec<Vec<usize>>, list: usize) -> Result<(), NoMemory>
    ensures there { OnOk result (list < vec_len lists.new) }
    ensures same { SameTable [] (tables_of lists.old.items) (tables_of lists.new.items) }
{
    while lists.len() <= list {
        lists.push(Vec::new(alloc))?;
    }
    Ok(())
}
