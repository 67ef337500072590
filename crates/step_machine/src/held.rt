//! The frames of one round that a node holds.
ghost use Rattle.std.specs.Prelude.{◌≡◌, ◌↔◌, ◌<◌, ℕ, IfOk, IsSome, IsTrue, None, Some, length};
ghost use Rattle.std.specs.Prelude.{replicate, slice_set};
ghost use Rattle.step_machine.specs.Sealed.{held_at};

use crate::sealed::Sealed;
use run_events::NoMemory;
use std::alloc::Global;
use std::marker::Model;

/// The frames of one round, each at the place of its sender.
#[derive(Drop)]
pub(crate) struct Held {
    places: Vec<Option<Sealed>>,
}

impl Model for Held {
    ghost use Rattle.step_machine.specs.Sealed.{HeldRow};

    ghost Value = { HeldRow };

    ghost view = { λ h. h.places.items };
}

impl Held {
    /// A free place for each of so many senders.
    pub(crate) fn new(alloc: Global, senders: u32) -> Result<Held, NoMemory>
        ensures { IfOk result (λ h. h ≡ replicate senders None) }
    {
        let mut places = Vec::new(alloc);
        for _sender in 0..senders {
            places.push(None)?;
        }
        Ok(Held { places })
    }

    /// The frames, by sender.
    pub(crate) fn frames(&self) -> &[Option<Sealed>]
        ensures { result.now ≡ self.now }
    {
        &self.places
    }

    /// Whether a frame of the sender is held.
    #[inline(always)]
    pub(crate) fn has(&self, sender: u32) -> bool
        requires { sender < length self.now }
        ensures { IsTrue result ↔ IsSome (held_at self.now sender) }
    {
        self.places[sender as usize].is_some()
    }

    /// Holds a frame at the place of its sender.
    #[inline(always)]
    pub(crate) fn put(&mut self, sender: u32, frame: Sealed)
        requires { sender < length self.old }
        ensures { self.new ≡ slice_set self.old sender (Some frame) }
    {
        self.places[sender as usize] = Some(frame);
    }

    /// Drops the frames; the places stay.
    pub(crate) fn clear(&mut self)
        ensures frames { (j : ℕ) → held_at self.new j ≡ None }
        ensures places { length self.new ≡ length self.old }
    {
        let_go_of_all(&mut self.places);
    }
}

/// Drops the frames.
fn let_go_of_all(places: &mut [Option<Sealed>])
    ensures frames { (j : ℕ) → held_at places.new j ≡ None }
    ensures places { length places.new ≡ length places.old }
{
    for place in places.iter_mut() {
        *place = None;
    }
}
