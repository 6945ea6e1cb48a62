//! A hart, its counts and its resident, and what a monitor does with it.

ghost use Rattle.std.specs.Prelude.{◌≡◌, ◌+◌, ◌^◌, ◌<◌, bit_or};
ghost use Rattle.std.specs.Bool.{OnTrue, OnFalse};
ghost use Rattle.guest_modes.specs.Words.{IsWithin};
ghost use Rattle.rv_hart.specs.Step.{next};
ghost use Rattle.rv_hart.specs.Hart.{HartState, fresh_hart, machine_of, SameRest, same_self, same_then};

use crate::freshness::{is_fresh_core, is_fresh_unit};
use crate::memory::TaskMem;
use crate::processor::Core;
use ctr_buffer::CtrStore;
use ctr_csrs::Depth;
use guest_modes::{INTERRUPTS, Priv};
use indirect_regs::{CtrPort, CtrUnit, PortReg};
use std::marker::Model;

/// A hart: a core, a control transfer unit with its record buffer in a store, how many steps it made, how many accesses
/// a monitor made, and the number of the task that runs on it.
#[derive(Drop)]
pub struct Hart<B: CtrStore> {
    pub(crate) core: Core,
    pub(crate) unit: CtrUnit<B>,
    steps: u64,
    count: u64,
    resident: Option<u8>,
}

impl<B: CtrStore> Model for Hart<B> {
    ghost use Rattle.rv_hart.specs.Hart.{HartState};

    ghost Value = { HartState };

    ghost view = { λ h. record { core = h.core; unit = h.unit; steps = h.steps; accesses = h.count; resident = h.resident } };
}

impl<B: CtrStore> Hart<B> {
    /// A hart that has done nothing: a fresh core, zero controls and entries, depth 16, and no resident.
    pub fn fresh() -> Hart<B>
        ensures { result ≡ fresh_hart }
    {
        Hart {
            core: Core::fresh(),
            unit: CtrUnit::fresh(Depth::D16),
            steps: 0,
            count: 0,
            resident: None,
        }
    }

    // Whether it has done nothing.
    pub(crate) fn is_fresh(&self) -> bool
        ensures yes { OnTrue result (self.now ≡ fresh_hart) }
        ensures no { OnFalse result (self.now ≡ fresh_hart → ⊥) }
    {
        if !is_fresh_core(&self.core) {
            return false;
        }
        if !is_fresh_unit(&self.unit) {
            return false;
        }
        if self.steps != 0 {
            return false;
        }
        if self.count != 0 {
            return false;
        }
        self.resident.is_none()
    }

    /// One step of the hart: the interrupts of `pending` become pending, bit i being interrupt i, and then it takes an
    /// interrupt or executes one instruction (RISC-V Unprivileged ISA; Privileged Architecture, "Machine Interrupt
    /// Registers" and "Machine Trap Delegation Registers"; Control Transfer Records 1.0). `pending` has bits of `INTERRUPTS`
    /// alone, the interrupts 1, 2, 3, 5, 6, 7, 9, 10, 11 and 13, and `steps` is below 2^63.
    #[inline(always)]
    pub fn step(&mut self, mem: &mut TaskMem, pending: u64)
        requires pending { IsWithin INTERRUPTS pending }
        requires steps { self.old.steps < 2 ^ 63 }
        ensures state { machine_of self.new mem.new ≡ next pending (machine_of self.old mem.old) }
        ensures rest { self.new ≡ record self.old
            { core = self.new.core; unit = self.new.unit; steps = self.old.steps + 1 } }
    {
        raise(&mut self.core.csrs, pending);
        self.steps += 1;
        self.make(mem);
    }

    /// Exchanges the core with the given one: no step, no access, and no register of control transfer records but
    /// `vsiselect`, which is part of the core.
    pub fn swap_core(&mut self, core: &mut Core)
        ensures hart { self.new ≡ record self.old { core = core.old } }
        ensures core { core.new ≡ self.old.core }
    {
        std::mem::swap(&mut self.core, core);
    }

    /// Says which task runs on the hart.
    pub fn set_resident(&mut self, task: Option<u8>)
        ensures { self.new ≡ record self.old { resident = task } }
    {
        self.resident = task;
    }

    /// The task that runs on the hart.
    pub fn resident(&self) -> Option<u8>
        ensures { result ≡ self.now.resident }
    {
        self.resident
    }

    /// How many steps the hart made.
    pub fn steps(&self) -> u64
        ensures { result ≡ self.now.steps }
    {
        self.steps
    }

    /// The core of the hart.
    pub fn core(&self) -> &Core
        ensures { result.now ≡ self.now.core }
    {
        &self.core
    }
}

impl<B: CtrStore> CtrPort for Hart<B> {
    ghost unit = { λ h. h.unit };

    ghost count = { λ h. h.accesses };

    ghost same_rest = { SameRest };

    ghost same_self = { same_self };

    ghost same_then = { same_then };

    #[inline(always)]
    fn get(&mut self, reg: PortReg) -> u64 {
        self.count += 1;
        self.unit.get(reg)
    }

    #[inline(always)]
    fn set(&mut self, reg: PortReg, value: u64) {
        self.count += 1;
        self.unit.set(reg, value);
    }

    fn clear(&mut self) {
        self.count += 1;
        self.unit.clear();
    }

    fn accesses(&self) -> u64 {
        self.count
    }
}

// Makes interrupts pending, which at most steps are none.
#[inline(always)]
fn raise(csrs: &mut Priv, pending: u64)
    requires { IsWithin INTERRUPTS pending }
    ensures { csrs.new ≡ record csrs.old { mip = bit_or csrs.old.mip pending } }
{
    if pending != 0 {
        csrs.raise(pending);
    }
}
