//! An entry: its source, target and type words.

ghost use Rattle.std.specs.Prelude.{◌≡◌, ℕ, ◌%◌, ◌<◌, Bool, replicate};
ghost use Rattle.ctr_buffer.specs.Entry.{Entry, FitsPart, address_in, flag_in, with_flag, is_valid, is_mispredicted, source_address, target_address, recorded_entry, part_of, with_part, zero_entry, unlinked};
ghost use Rattle.ctr_buffer.specs.EntryLaws.{ReadsBack, KeepsAllButV};

use std::marker::Model;

/// A part of a slot, which software reads and writes by a register of its own (RISC-V Control Transfer Records 1.0,
/// registers `ctrsource`, `ctrtarget` and `ctrdata`).
#[derive(Clone, Copy, Debug, PartialEq, Eq)]
pub enum Part {
    /// The source word, 64 bits: an address with V in bit 0.
    Source,

    /// The target word, 64 bits: an address with MISP in bit 0.
    Target,

    /// The code of the transfer type, below 16.
    Kind,
}

/// An entry of the record buffer (RISC-V Control Transfer Records 1.0, registers `ctrsource`, `ctrtarget` and
/// `ctrdata`). The default is the zero slot, which holds no transfer.
#[derive(Clone, Copy, Debug, Default, PartialEq, Eq)]
pub struct Slot {
    /// The address of the transfer, a multiple of 2, plus V in bit 0, which is 1 where the slot holds a transfer.
    pub source: u64,

    /// The address that it went to, a multiple of 2, plus MISP in bit 0, which is 1 where it was mispredicted.
    pub target: u64,

    /// The code of the transfer type, below 16.
    pub kind: u8,
}

// Clauses see the three numbers; the facts of an entry hold of every slot.
impl Model for Slot {
    ghost use Rattle.ctr_buffer.specs.Entry.{Entry, IsEntry};

    ghost Value = { Entry };

    ghost view = { λ s. record { source = s.source; target = s.target; kind = s.kind } };

    ghost invariant = { λ s. IsEntry (record { source = s.source; target = s.target; kind = s.kind }) };

    ghost inverse = { λ e. record { source = e.source; target = e.target; kind = e.kind } };
}

impl Slot {
    /// The slot of a transfer from one address to another, with V set; `misp` says whether it was mispredicted, and `kind`
    /// is the code of its type.
    #[inline(always)]
    pub fn of(source: u64, target: u64, misp: bool, kind: u8) -> Slot
        requires source { source % 2 ≡ 0 }
        requires target { target % 2 ≡ 0 }
        requires kind { kind < 16 }
        ensures { result ≡ recorded_entry source target misp kind }
    {
        Slot {
            source: with_flag(source, true),
            target: with_flag(target, misp),
            kind,
        }
    }

    /// V: whether the slot holds a transfer.
    #[inline(always)]
    pub fn is_valid(self) -> bool
        ensures { result ≡ is_valid self }
    {
        flag_in(self.source)
    }

    /// MISP: whether the transfer was mispredicted, as far as the slot says.
    #[inline(always)]
    pub fn is_mispredicted(self) -> bool
        ensures { result ≡ is_mispredicted self }
    {
        flag_in(self.target)
    }

    /// The address of the transfer, a multiple of 2.
    #[inline(always)]
    pub fn source_address(self) -> u64
        ensures { result ≡ source_address self }
    {
        address_in(self.source)
    }

    /// The address that it went to, a multiple of 2.
    #[inline(always)]
    pub fn target_address(self) -> u64
        ensures { result ≡ target_address self }
    {
        address_in(self.target)
    }

    /// A part of the slot.
    #[inline(always)]
    pub fn part(self, part: Part) -> u64
        ensures value { result ≡ part_of part self }
        ensures fits { FitsPart part result }
    {
        match part {
            Part::Source => self.source,
            Part::Target => self.target,
            Part::Kind => u64::from(self.kind),
        }
    }

    /// The slot with one part replaced.
    #[inline(always)]
    pub fn with_part(self, part: Part, value: u64) -> Slot
        requires { FitsPart part value }
        ensures { result ≡ with_part self part value }
    {
        match part {
            Part::Source => Slot {
                source: value,
                ..self
            },
            Part::Target => Slot {
                target: value,
                ..self
            },
            Part::Kind => Slot {
                kind: value as u8,
                ..self
            },
        }
    }

    // Becomes another slot, number by number: an assignment writes the bytes between them too.
    #[inline(always)]
    pub(crate) fn become_slot(&mut self, other: Slot)
        ensures { self.new ≡ other }
    {
        self.source = other.source;
        self.target = other.target;
        self.kind = other.kind;
    }

    // The slot with V cleared, as a return leaves it under return-stack emulation.
    pub(crate) fn unlinked(self) -> Slot
        ensures { result ≡ unlinked self }
    {
        Slot {
            source: address_in(self.source),
            ..self
        }
    }
}

// The address of a word, without the flag in bit 0.
fn address_in(word: u64) -> u64
    ensures { result ≡ address_in word }
{
    word / 2 * 2
}

// The flag in bit 0 of a word.
fn flag_in(word: u64) -> bool
    ensures { result ≡ flag_in word }
{
    word % 2 == 1
}

// A word of an address and a flag.
fn with_flag(address: u64, flag: bool) -> u64
    requires { address % 2 ≡ 0 }
    ensures { result ≡ with_flag address flag }
{
    if flag { address + 1 } else { address }
}

const ZERO: Slot = Slot {
    source: 0,
    target: 0,
    kind: 0,
};

// The entries of an empty store, of any depth.
pub(crate) fn zeros() -> [Slot; 256]
    ensures { result ≡ replicate 256 zero_entry }
{
    [ZERO; 256]
}

/// Laws of the words of an entry: a proof and no work.
pub fn entry_laws()
    // What is read of the entry of a transfer is what was recorded.
    ensures reads_back { (source target : ℕ) (misp : Bool) (kind : ℕ) → source % 2 ≡ 0 → target % 2
        ≡ 0 → ReadsBack source target misp kind }

    // A return under return-stack emulation clears V and leaves all else.
    ensures unlinked { (e : Entry) → KeepsAllButV e }
{}
