//! What a desk remembers of the files that it wrote.
ghost use Rattle.std.specs.Prelude.{◌≡◌, ◌++◌, ◌∷◌, [], OnErr, OnOk};

use crate::desk::DeskFault;
use std::alloc::Global;
use std::marker::Model;

/// The names of the files that were written, in order.
#[derive(Drop)]
pub struct Written {
    alloc: Global,
    names: Vec<String>,
}

impl Model for Written {
    ghost use Rattle.std.specs.Prelude.{List, ℕ, map, string_bytes};

    ghost Value = { List (List ℕ) };

    ghost view = { λ w. map (λ s. string_bytes s) w.names.items };
}

impl Written {
    /// No files; takes no memory.
    pub fn new(alloc: Global) -> Written
        ensures { result ≡ [] }
    {
        Written {
            alloc,
            names: Vec::new(alloc),
        }
    }

    /// Notes a file that is to be written.
    pub fn note(&mut self, name: &str) -> Result<(), DeskFault>
        ensures ok { OnOk result (self.new ≡ self.old ++ name.now ∷ []) }
        ensures err { OnErr result (self.new ≡ self.old) }
    {
        let Ok(name) = String::from_str(self.alloc, name) else {
            return Err(DeskFault::NoMemory);
        };
        match self.names.push(name) {
            Ok(()) => Ok(()),
            Err(_) => Err(DeskFault::NoMemory),
        }
    }
}
