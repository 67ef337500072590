//! A run, and whether what stands under a lock is of it.
ghost use Rattle.std.specs.Prelude.{◌≡◌, ◌↔◌, IfOk, IsTrue};
ghost use Rattle.round_meaning.specs.Setups.{IsLawful};
ghost use Rattle.step_book.specs.Names.{IsName};
ghost use Rattle.step_journal.specs.Fits.{IsOfRun, place_among};
ghost use Rattle.locked_buffers.specs.Runs.{IsBookOfRun, IsSound};

use round_check::Checked;
use round_meaning::Setup;
use run_events::{Name, NoMemory};
use slot_plans::Plan;
use std::marker::Model;
use step_book::{Book, Buffer};
use step_journal::place;

/// The program, setup and plan of a run.
#[derive(Drop)]
pub struct Run<P: Plan> {
    pub(crate) program: Checked,
    pub(crate) setup: Setup,
    pub(crate) plan: P,
}

impl<P: Plan> Model for Run<P> {
    ghost use Rattle.round_lang.specs.contracts.formula.Formula as formula;
    ghost use Rattle.std.specs.Coded.{codes};
    ghost use Rattle.locked_buffers.specs.Runs.{IsSound, Run};

    ghost Value = { Run P };

    ghost coded = { Prim.hlevel (codes, formula.the_row.coded) };

    ghost view = { λ s. record { plan = s.plan; program = s.program; setup = s.setup } };

    ghost invariant = { λ s. IsSound P.nodes (record {
      plan = s.plan;
      program = s.program;
      setup =
          s.setup;
    }) };
}

impl<P: Plan> Run<P> {
    /// The run of a program under a setup and a plan.
    pub fn new(program: &Checked, setup: &Setup, plan: P) -> Result<Run<P>, NoMemory>
        requires lawful { IsLawful program.now.values setup.now }
        requires nodes { P.nodes plan ≡ setup.now.nodes }
        ensures { IfOk result (λ run. run ≡ record {
          plan = plan;
          program = program.now;
          setup =
              setup.now;
        }) }
    {
        Ok(Run {
            program: program.copy()?,
            setup: setup.copy()?,
            plan,
        })
    }

    /// Nothing at run time: the setup is lawful, and the plan is for its nodes.
    pub(crate) fn sound(&self)
        ensures { IsSound P.nodes self.now }
    {
        let _plan = self.plan;
    }

    /// Whether a book is of the run.
    #[inline(always)]
    pub fn has_book(&self, book: &Book<P>) -> bool
        ensures { IsTrue result ↔ IsBookOfRun self.now book.now }
    {
        self.plan == book.plan()
            && self.program.same(book.program())
            && self.setup.same(book.setup())
    }

    /// Whether a buffer is of the run.
    #[inline(always)]
    pub(crate) fn has_buffer(&self, buffer: &Buffer) -> bool
        ensures { IsTrue result ↔ IsOfRun self.now.program self.now.setup buffer.now }
    {
        self.program.same(buffer.program()) && self.setup.same(buffer.setup())
    }

    /// The place of a copy of a message among those of its round to its receiver.
    pub(crate) fn place(&self, name: Name) -> usize
        requires { IsName self.now.setup name }
        ensures { result ≡ place_among self.now.setup.nodes name }
    {
        place(self.setup.nodes, name)
    }
}
