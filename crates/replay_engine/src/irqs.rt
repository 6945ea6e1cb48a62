//! The interrupts of a task, and which of them become pending at a step.

ghost use Rattle.std.specs.Prelude.{OnOk, ◌≡◌, ◌+◌, ◌<◌, ◌^◌, [], ◌∷◌, ◌++◌, drop};
ghost use Rattle.std.specs.Bool.{OnTrue, OnFalse};
ghost use Rattle.guest_modes.specs.declared.causes.TheConstants.{INTERRUPTS};
ghost use Rattle.guest_modes.specs.Words.{IsWithin};
ghost use Rattle.rv_hart.specs.Task.{causes};
ghost use Rattle.replay_engine.specs.Irqs.{IsIrq, CanFollow, IsDue, IsEarly, Rise, place_of};
ghost use Rattle.replay_engine.specs.Irqs.{step_at};

use ctr_port::NoMemory;
use guest_modes::interrupt_laws;
use std::alloc::Global;
use std::marker::Model;

/// The interrupt with the number `cause` becomes pending before the task's own step `step`, counted
/// from 0.
#[derive(Clone, Copy, Debug, Default)]
pub struct Irq {
    pub(crate) step: u64,
    pub(crate) cause: u8,
}

impl Model for Irq {
    ghost use Rattle.rv_hart.specs.Task.{Irq};

    ghost Value = { Irq };

    ghost view = { λ i. record { step = i.step; cause = i.cause } };

    ghost inverse = { λ i. record { step = i.step; cause = i.cause } };
}

impl Irq {
    // The bit of `mip` that it sets.
    fn bit(self) -> u64
        requires { IsIrq self }
        ensures bit { result ≡ 2 ^ self.cause }
        ensures within { IsWithin INTERRUPTS result }
    {
        interrupt_laws();
        1 << self.cause
    }
}

/// The interrupts of a task, each above the one before it. Contracts see the list of them.
#[derive(Drop)]
pub struct Irqs {
    list: Vec<Irq>,
}

impl Model for Irqs {
    ghost use Rattle.std.specs.Prelude.{List};
    ghost use Rattle.rv_hart.specs.Task.{Irq};
    ghost use Rattle.replay_engine.specs.Irqs.{AreIrqs};

    ghost Value = { List Irq };

    ghost view = { λ i. i.list.items };

    ghost invariant = { λ i. AreIrqs i.list.items };
}

impl Irqs {
    /// None. It takes no memory.
    pub fn new(alloc: Global) -> Self
        ensures { result ≡ [] }
    {
        Irqs {
            list: Vec::new(alloc),
        }
    }

    /// Adds one that comes after those that are here.
    pub fn push(&mut self, irq: Irq) -> Result<(), NoMemory>
        requires irq { IsIrq irq }
        requires follows { CanFollow self.old irq }
        ensures { OnOk result (self.new ≡ self.old ++ irq ∷ []) }
    {
        self.list.push(irq)?;
        Ok(())
    }

    // Whether there is one at this place, and it comes before this step.
    fn is_early(&self, at: usize, step: u64) -> bool
        ensures yes { OnTrue result (IsEarly self.now at step) }
        ensures no { OnFalse result (IsEarly self.now at step → ⊥) }
        ensures room { OnTrue result (at + 1 < 2 ^ 64) }
    {
        if at >= self.list.len() {
            return false;
        }
        let irq = self.list[at];
        irq.step < step
    }

    // A place up to which all come before this step: the hint, where it is one, and else the first
    // place.
    fn start(&self, hint: usize, step: u64) -> usize
        ensures counted { place_of self.now step ≡ result + place_of (drop result self.now) step }
        ensures order { Rise self.now }
    {
        if hint == 0 || hint > self.list.len() {
            return 0;
        }
        let last = self.list[hint - 1];
        if last.step < step { hint } else { 0 }
    }

    // How many come before a step, counted on from where an earlier count came to.
    pub(crate) fn place(&self, hint: usize, step: u64) -> usize
        ensures { result ≡ place_of self.now step }
    {
        let mut at = self.start(hint, step);
        while self.is_early(at, step) {
            at += 1;
        }
        at
    }

    // Whether there is one at this place, at this step.
    fn is_due(&self, at: usize, step: u64) -> bool
        ensures yes { OnTrue result (IsDue self.now at step) }
        ensures no { OnFalse result (IsDue self.now at step → ⊥) }
    {
        if at >= self.list.len() {
            return false;
        }
        let irq = self.list[at];
        irq.step == step
    }

    // The bits of `mip` that those of a step set. The place goes on from the first of this step to
    // the first of a later one.
    pub(crate) fn raised(&self, place: &mut usize, step: u64) -> u64
        requires { place.old ≡ place_of self.now step }
        ensures bits { result ≡ causes self.now step }
        ensures within { IsWithin INTERRUPTS result }
        ensures place { place.new ≡ place_of self.now (step + 1) }
    {
        let mut bits = 0;
        let mut at = *place;
        while self.is_due(at, step) {
            bits |= self.list[at].bit();
            at += 1;
        }
        *place = at;
        bits
    }

    // The step of the one at this place; where there is none, one that no task comes to.
    pub(crate) fn step_at(&self, at: usize) -> u64
        ensures { result ≡ step_at self.now at }
    {
        if at >= self.list.len() {
            return u64::MAX;
        }
        let irq = self.list[at];
        irq.step
    }

    // The same as `raised`, for a step that is mostly none of theirs: the step of the one at the
    // place is kept beside the place, so that the list is looked at in that step alone.
    #[inline(always)]
    pub(crate) fn raised_at(&self, place: &mut usize, next: &mut u64, step: u64) -> u64
        requires place { place.old ≡ place_of self.now step }
        requires next { next.old ≡ step_at self.now place.old }
        ensures bits { result ≡ causes self.now step }
        ensures within { IsWithin INTERRUPTS result }
        ensures place { place.new ≡ place_of self.now (step + 1) }
        ensures next { next.new ≡ step_at self.now place.new }
    {
        // That they rise is known where the list is touched.
        let _ = &self.list;
        if step != *next {
            return 0;
        }
        self.raised_now(place, next, step)
    }

    // The same in a step that may be one of theirs.
    #[inline(never)]
    fn raised_now(&self, place: &mut usize, next: &mut u64, step: u64) -> u64
        requires { place.old ≡ place_of self.now step }
        ensures bits { result ≡ causes self.now step }
        ensures within { IsWithin INTERRUPTS result }
        ensures place { place.new ≡ place_of self.now (step + 1) }
        ensures next { next.new ≡ step_at self.now place.new }
    {
        let bits = self.raised(place, step);
        *next = self.step_at(*place);
        bits
    }
}
