//! The registers of a hart's software.

ghost use Rattle.std.specs.Prelude.{◌≡◌, ℕ, ◌-◌, ◌^◌, ◌<◌, bit_and, bit_or, IsTrue};
ghost use Rattle.guest_modes.specs.Words.{IsWithin};

use crate::causes::INTERRUPTS;
use crate::masked::Masked;
use crate::mstatus::Mstatus;

/// The registers of a hart's software that this simulator keeps, but for those of control transfer records (RISC-V
/// Privileged Architecture). Each keeps the bits that its software can change; `mip` holds the pending interrupts of
/// all modes, `mie` the enabled ones. `mideleg` is kept without the bits that read as 1.
#[derive(Clone, Copy, Debug, PartialEq, Eq)]
pub struct Priv {
    pub(crate) mstatus: Mstatus,
    pub(crate) medeleg: Masked<0x4007FF>,
    pub(crate) mideleg: Masked<0x2222>,
    pub(crate) mie: Masked<INTERRUPTS>,
    pub(crate) mip: Masked<INTERRUPTS>,
    pub(crate) mtvec: Masked<0xFFFFFFFFFFFFFFFD>,
    pub(crate) mscratch: u64,
    pub(crate) mepc: Masked<0xFFFFFFFFFFFFFFFC>,
    pub(crate) mcause: u64,
    pub(crate) mtval: u64,
    pub(crate) mtinst: u64,
    pub(crate) mtval2: u64,
    pub(crate) stvec: Masked<0xFFFFFFFFFFFFFFFD>,
    pub(crate) sscratch: u64,
    pub(crate) sepc: Masked<0xFFFFFFFFFFFFFFFC>,
    pub(crate) scause: u64,
    pub(crate) stval: u64,
    pub(crate) hstatus: Masked<0x180>,
    pub(crate) hedeleg: Masked<0x1FF>,
    pub(crate) hideleg: Masked<0x2444>,
    pub(crate) htval: u64,
    pub(crate) htinst: u64,
    pub(crate) vsstatus: Masked<0x122>,
    pub(crate) vstvec: Masked<0xFFFFFFFFFFFFFFFD>,
    pub(crate) vsscratch: u64,
    pub(crate) vsepc: Masked<0xFFFFFFFFFFFFFFFC>,
    pub(crate) vscause: u64,
    pub(crate) vstval: u64,
    pub(crate) vsiselect: Masked<0xFFF>,
}

impl Priv {
    ghost use Rattle.guest_modes.specs.Fresh.{fresh_registers};
    ghost use Rattle.guest_modes.specs.Traps.{interrupt_order};
    ghost use Rattle.guest_modes.specs.Numbers.{is_in};

    /// The registers of a hart that has executed nothing: every bit that isn't fixed is 0.
    pub fn fresh() -> Priv
        ensures { result ≡ fresh_registers }
    {
        Priv {
            mstatus: Mstatus::zero(),
            medeleg: Masked::of(0),
            mideleg: Masked::of(0),
            mie: Masked::of(0),
            mip: Masked::of(0),
            mtvec: Masked::of(0),
            mscratch: 0,
            mepc: Masked::of(0),
            mcause: 0,
            mtval: 0,
            mtinst: 0,
            mtval2: 0,
            stvec: Masked::of(0),
            sscratch: 0,
            sepc: Masked::of(0),
            scause: 0,
            stval: 0,
            hstatus: Masked::of(0),
            hedeleg: Masked::of(0),
            hideleg: Masked::of(0),
            htval: 0,
            htinst: 0,
            vsstatus: Masked::of(0),
            vstvec: Masked::of(0),
            vsscratch: 0,
            vsepc: Masked::of(0),
            vscause: 0,
            vstval: 0,
            vsiselect: Masked::of(0),
        }
    }

    /// Makes interrupts pending: bit i of `pending` is interrupt i. Those that were pending stay so.
    pub fn raise(&mut self, pending: u64)
        requires { IsWithin INTERRUPTS pending }
        ensures { self.new ≡ record self.old { mip = bit_or self.old.mip pending } }
    {
        self.mip = self.mip.set(pending);
    }

    /// Makes an interrupt pending no longer.
    pub fn lower(&mut self, cause: u8)
        requires { IsTrue (is_in cause interrupt_order) }
        ensures { self.new
            ≡ record self.old { mip = bit_and self.old.mip (2 ^ 64 - 1 - 2 ^ cause) } }
    {
        self.mip = self.mip.clear(cause);
    }

    /// The register `vsiselect`, 12 bits.
    pub fn vsiselect(&self) -> u16
        ensures value { result ≡ self.now.vsiselect }
        ensures fits { result < 4096 }
    {
        self.vsiselect.get() as u16
    }

    /// Writes `vsiselect`.
    pub fn set_vsiselect(&mut self, value: u16)
        requires { value < 4096 }
        ensures { self.new ≡ record self.old { vsiselect = value } }
    {
        self.vsiselect = Masked::of(u64::from(value));
    }
}
