//! The control transfer unit of a hart.

ghost use Rattle.std.specs.Prelude.{◌≡◌, ℕ, ◌%◌, ◌<◌, ◌≤◌, Option};
ghost use Rattle.ctr_csrs.specs.Depths.{depth_at};
ghost use Rattle.ctr_buffer.specs.Entry.{FitsPart, part_of};
ghost use Rattle.ctr_buffer.specs.History.{CanTake};
ghost use Rattle.ctr_buffer.specs.declared.event.Event.{Event};
ghost use Rattle.indirect_regs.specs.Unit.{UnitState, IsUnit, fresh_unit, after_event, after_any, CanTakeAny, cleared_unit};
ghost use Rattle.indirect_regs.specs.Ports.{entry_named, part_kept, read, depth_written, part_written, event_of, changed, after_write, Selects, Legal};

use crate::port::PortReg;
use ctr_buffer::{CtrStore, Event, Part, Slot, perform};
use ctr_csrs::{
    Control, Depth, Status, depth_code, depth_of, entries, legal_m, legal_vs, status_of,
    status_word,
};
use std::marker::Model;

/// The control transfer unit of a hart (RISC-V Control Transfer Records 1.0).
#[derive(Drop)]
pub struct CtrUnit<B: CtrStore> {
    /// The record buffer, with the depth and WRPTR.
    pub store: B,

    /// `mctrctl`.
    pub m: Control,

    /// `vsctrctl`: it has no M and no MTE.
    pub vs: Control,

    /// FROZEN of `sctrstatus`.
    pub frozen: bool,

    /// `siselect`, below 4,096.
    pub select: u16,
}

// Clauses see the controls as words, and of the store what it means.
impl<B: CtrStore> Model for CtrUnit<B> {
    ghost use Rattle.std.specs.Prelude.{◌≡◌, ℕ, ◌<◌, bit_and};
    ghost use Rattle.ctr_csrs.specs.ControlFigure.{s_mask};
    ghost use Rattle.indirect_regs.specs.Unit.{UnitState};

    ghost Value = { UnitState };

    ghost view = { λ u. record { m = u.m; vs = u.vs; frozen = u.frozen; select = u.select; stack = B.means u.store } };

    ghost invariant = { λ u. (bit_and u.vs s_mask ≡ u.vs) × (u.select < 4096) };
}

impl<B: CtrStore> CtrUnit<B> {
    /// A unit with zero controls, FROZEN 0, select 0 and zero entries.
    pub fn fresh(depth: Depth) -> CtrUnit<B>
        ensures { result ≡ fresh_unit depth }
    {
        CtrUnit {
            store: B::fresh(depth),
            m: legal_m(0),
            vs: legal_vs(0),
            frozen: false,
            select: 0,
        }
    }

    /// What a register reads as, with the rights of M. The registers of an entry want a select from 0x200 to 0x2FF.
    #[inline(always)]
    pub fn get(&self, reg: PortReg) -> u64
        requires { Selects reg self.now }
        ensures value { result ≡ read reg self.now }
        ensures legal { Legal reg result }
        ensures shape { IsUnit self.now }
    {
        self.keep_facts();
        match reg {
            PortReg::Mctrctl => self.m.word(),
            PortReg::Vsctrctl => self.vs.word(),
            PortReg::Depth => depth_code(self.store.depth()),
            PortReg::Status => self.status(),
            PortReg::Select => u64::from(self.select),
            PortReg::From => self.part(self.select, Part::Source),
            PortReg::To => self.part(self.select, Part::Target),
            PortReg::Kind => self.part(self.select, Part::Kind),
        }
    }

    /// Writes a register with the rights of M. The registers of an entry want a select from 0x200 to 0x2FF.
    #[inline(always)]
    pub fn set(&mut self, reg: PortReg, value: u64)
        requires { Selects reg self.old }
        ensures { self.new ≡ after_write reg value self.old }
    {
        let event = self.event(reg, value);
        self.change(reg, value);
        self.perform_any(event);
    }

    /// Makes every entry zero: SCTRCLR.
    pub fn clear(&mut self)
        ensures { self.new ≡ cleared_unit self.old }
    {
        self.store.clear();
    }

    /// Makes an event of the record buffer happen.
    #[inline(always)]
    pub fn perform(&mut self, event: Event)
        requires { CanTake self.old.stack event }
        ensures { self.new ≡ after_event self.old event }
    {
        perform(&mut self.store, event);
    }

    // What holds of every unit.
    fn keep_facts(&self)
        ensures { IsUnit self.now }
    {
        let _controls = (self.m.word(), self.vs);
        let _depth = self.store.depth();
    }

    // What `sctrstatus` reads as.
    fn status(&self) -> u64
        ensures is { result ≡ read PortReg.Status self.now }
        ensures legal { Legal PortReg.Status result }
    {
        status_word(Status {
            wrptr: self.store.wrptr(),
            frozen: self.frozen,
        })
    }

    // The entry that a select names.
    #[inline(always)]
    fn entry(&self, select: u16) -> Slot
        ensures { result ≡ entry_named self.now.stack select }
    {
        let number = select % 256;
        if number < entries(self.store.depth()) {
            self.store.slot(number)
        } else {
            Slot {
                source: 0,
                target: 0,
                kind: 0,
            }
        }
    }

    // A part of the entry that a select names.
    #[inline(always)]
    pub(crate) fn part(&self, select: u16, part: Part) -> u64
        ensures is { result ≡ part_of part (entry_named self.now.stack select) }
        ensures fits { FitsPart part result }
    {
        self.entry(select).part(part)
    }

    // The event that a write of a register is.
    #[inline(always)]
    fn event(&self, reg: PortReg, value: u64) -> Option<Event>
        ensures is { result ≡ event_of reg self.now value }
        ensures fits { CanTakeAny self.now.stack result }
    {
        match reg {
            PortReg::Depth => self.depth_event(value),
            PortReg::Status => self.turn_event(value),
            PortReg::From => self.part_event(self.select, Part::Source, value),
            PortReg::To => self.part_event(self.select, Part::Target, value),
            PortReg::Kind => self.part_event(self.select, Part::Kind, value),
            PortReg::Mctrctl | PortReg::Vsctrctl | PortReg::Select => None,
        }
    }

    fn depth_event(&self, value: u64) -> Option<Event>
        ensures is { result ≡ depth_written self.now.stack (depth_at (value % 8)) }
        ensures fits { CanTakeAny self.now.stack result }
    {
        let Some(depth) = depth_of(value % 8) else {
            return None;
        };
        if entries(depth) == entries(self.store.depth()) {
            None
        } else {
            Some(Event::SetDepth(depth))
        }
    }

    fn turn_event(&self, value: u64) -> Option<Event>
        ensures is { result ≡ event_of PortReg.Status self.now value }
        ensures fits { CanTakeAny self.now.stack result }
    {
        let wrptr = status_of(value, self.store.depth()).wrptr;
        if wrptr == self.store.wrptr() {
            None
        } else {
            Some(Event::Turn(wrptr))
        }
    }

    // The event of a write to a part of the entry that a select names.
    #[inline(always)]
    pub(crate) fn part_event(&self, select: u16, part: Part, value: u64) -> Option<Event>
        ensures is { result ≡ part_written self.now.stack select part value }
        ensures fits { CanTakeAny self.now.stack result }
    {
        let number = select % 256;
        if number < entries(self.store.depth()) {
            Some(Event::Poke(number, part, kept(part, value)))
        } else {
            None
        }
    }

    // What a write of a register changes besides the record buffer.
    #[inline(always)]
    fn change(&mut self, reg: PortReg, value: u64)
        ensures { self.new ≡ changed reg self.old value }
    {
        match reg {
            PortReg::Mctrctl => self.m = legal_m(value),
            PortReg::Vsctrctl => self.vs = legal_vs(value),
            PortReg::Status => self.frozen = status_of(value, self.store.depth()).frozen,
            PortReg::Select => self.select = (value % 4096) as u16,
            PortReg::Depth | PortReg::From | PortReg::To | PortReg::Kind => {}
        }
    }

    #[inline(always)]
    pub(crate) fn perform_any(&mut self, event: Option<Event>)
        requires { CanTakeAny self.old.stack event }
        ensures { self.new ≡ record self.old { stack = after_any self.old.stack event } }
    {
        if let Some(event) = event {
            self.perform(event);
        }
    }
}

// What a part keeps of a value that is written to it.
#[inline(always)]
fn kept(part: Part, value: u64) -> u64
    ensures is { result ≡ part_kept part value }
    ensures fits { FitsPart part result }
{
    match part {
        Part::Source | Part::Target => value,
        Part::Kind => value % 16,
    }
}
