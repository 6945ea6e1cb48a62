//! The registers by number: what each reads as, and what a write of it changes.

ghost use Rattle.std.specs.Prelude.{◌≡◌, ℕ, ◌*◌, ◌/◌, ◌<◌, bit_and, IsTrue};
ghost use Rattle.guest_modes.specs.Numbers.{is_register};
ghost use Rattle.guest_modes.specs.Registers.{lowered, lifted, shown, read_of, after_csr_write};

use crate::causes::INTERRUPTS;
use crate::masked::Masked;
use crate::registers::Priv;

// Every register by number. What stands behind a number is one of these:
//
//     status                     mstatus
//     status_part                sstatus, a part of mstatus
//     fixed V                    reads V
//     kept R MASK ADDED          R keeps MASK and reads with ADDED
//     whole R                    R keeps all 64 bits
//     pending R PART             reads R, and a write changes PART of it
//     part R MASK PART           reads MASK of R, and a write changes PART of it
//     delegated R PART           reads what mideleg has of R, and a write changes what it has of PART
//     guest R                    reads what VS sees of R, and a write changes it
//     guest_part R PART          reads what VS sees of R, and a write changes what it sees of PART
//
// The verb says what is made of a row: `reads` a value, `written` an assignment.
macro_rules! registers {
    ($verb:ident, $csr:ident, $($more:ident)*) => {
        match $csr {
            0x300 => $verb!(status, $($more)*),
            0x301 => $verb!(fixed 0x8000000000141180, $($more)*),
            0x302 => $verb!(kept medeleg 0x4007FF 0, $($more)*),
            0x303 => $verb!(kept mideleg 0x2222 0x444, $($more)*),
            0x304 => $verb!(kept mie INTERRUPTS 0, $($more)*),
            0x305 => $verb!(kept mtvec 0xFFFFFFFFFFFFFFFD 0, $($more)*),
            0x340 => $verb!(whole mscratch, $($more)*),
            0x341 => $verb!(kept mepc 0xFFFFFFFFFFFFFFFC 0, $($more)*),
            0x342 => $verb!(whole mcause, $($more)*),
            0x343 => $verb!(whole mtval, $($more)*),
            0x344 => $verb!(pending mip 0x2226, $($more)*),
            0x34A => $verb!(whole mtinst, $($more)*),
            0x34B => $verb!(whole mtval2, $($more)*),
            0xF11 => $verb!(fixed 0, $($more)*),
            0xF12 => $verb!(fixed 0, $($more)*),
            0xF13 => $verb!(fixed 0, $($more)*),
            0xF14 => $verb!(fixed 0, $($more)*),
            0xF15 => $verb!(fixed 0, $($more)*),
            0x100 => $verb!(status_part, $($more)*),
            0x104 => $verb!(delegated mie 0x2222, $($more)*),
            0x144 => $verb!(delegated mip 0x2002, $($more)*),
            0x105 => $verb!(kept stvec 0xFFFFFFFFFFFFFFFD 0, $($more)*),
            0x140 => $verb!(whole sscratch, $($more)*),
            0x141 => $verb!(kept sepc 0xFFFFFFFFFFFFFFFC 0, $($more)*),
            0x142 => $verb!(whole scause, $($more)*),
            0x143 => $verb!(whole stval, $($more)*),
            0x180 => $verb!(fixed 0, $($more)*),
            0x600 => $verb!(kept hstatus 0x180 0x200000000, $($more)*),
            0x602 => $verb!(kept hedeleg 0x1FF 0, $($more)*),
            0x603 => $verb!(kept hideleg 0x2444 0, $($more)*),
            0x604 => $verb!(part mie 0x444 0x444, $($more)*),
            0x644 => $verb!(part mip 0x444 0x4, $($more)*),
            0x645 => $verb!(part mip 0x444 0x444, $($more)*),
            0x643 => $verb!(whole htval, $($more)*),
            0x64A => $verb!(whole htinst, $($more)*),
            0x680 => $verb!(fixed 0, $($more)*),
            0x200 => $verb!(kept vsstatus 0x122 0x200000000, $($more)*),
            0x204 => $verb!(guest mie, $($more)*),
            0x244 => $verb!(guest_part mip 0x2004, $($more)*),
            0x205 => $verb!(kept vstvec 0xFFFFFFFFFFFFFFFD 0, $($more)*),
            0x240 => $verb!(whole vsscratch, $($more)*),
            0x241 => $verb!(kept vsepc 0xFFFFFFFFFFFFFFFC 0, $($more)*),
            0x242 => $verb!(whole vscause, $($more)*),
            0x243 => $verb!(whole vstval, $($more)*),
            0x280 => $verb!(fixed 0, $($more)*),
            _ => $verb!(fixed 0, $($more)*),
        }
    };
}

macro_rules! reads {
    (status, $p:ident) => {
        $p.mstatus.get() | 0xA00000000
    };
    (status_part, $p:ident) => {
        ($p.mstatus.get() & 0x122) | 0x200000000
    };
    (fixed $value:literal, $p:ident) => {
        $value
    };
    (kept $name:ident $mask:tt 0, $p:ident) => {
        $p.$name.get()
    };
    (kept $name:ident $mask:tt $added:literal, $p:ident) => {
        $p.$name.get() | $added
    };
    (whole $name:ident, $p:ident) => {
        $p.$name
    };
    (pending $name:ident $part:literal, $p:ident) => {
        $p.$name.get()
    };
    (part $name:ident $mask:literal $part:literal, $p:ident) => {
        $p.$name.get() & $mask
    };
    (delegated $name:ident $part:literal, $p:ident) => {
        $p.$name.get() & ($p.mideleg.get() & 0x2222)
    };
    (guest $name:ident, $p:ident) => {
        lowered_word($p.$name.get() & shown_to_guest($p))
    };
    (guest_part $name:ident $part:literal, $p:ident) => {
        lowered_word($p.$name.get() & shown_to_guest($p))
    };
}

macro_rules! written {
    (status, $p:ident $value:ident) => {
        $p.mstatus = $p.mstatus.write($value)
    };
    (status_part, $p:ident $value:ident) => {
        $p.mstatus = $p.mstatus.write_supervisor($value)
    };
    (fixed $fixed:literal, $p:ident $value:ident) => {
        ()
    };
    (kept $name:ident $mask:tt $added:literal, $p:ident $value:ident) => {
        $p.$name = Masked::<$mask>::of($value)
    };
    (whole $name:ident, $p:ident $value:ident) => {
        $p.$name = $value
    };
    (pending $name:ident $part:literal, $p:ident $value:ident) => {
        $p.$name = $p.$name.merge($part, $value)
    };
    (part $name:ident $mask:literal $part:literal, $p:ident $value:ident) => {
        $p.$name = $p.$name.merge($part, $value)
    };
    (delegated $name:ident $part:literal, $p:ident $value:ident) => {
        $p.$name = $p.$name.merge($p.mideleg.get() & $part, $value)
    };
    (guest $name:ident, $p:ident $value:ident) => {
        $p.$name = $p.$name.merge(shown_to_guest($p), lifted_word($value))
    };
    (guest_part $name:ident $part:literal, $p:ident $value:ident) => {
        $p.$name = $p.$name.merge(shown_to_guest($p) & $part, lifted_word($value))
    };
}

/// Whether the number is that of a register kept here: one of M, S, the hypervisor or VS that isn't a control transfer
/// record's.
pub fn is_register(csr: u16) -> bool
    ensures { result ≡ is_register csr }
{
    matches!(
        csr,
        0x300..=0x305 | 0x340..=0x344 | 0x34A | 0x34B | 0xF11..=0xF15
        | 0x100 | 0x104 | 0x105 | 0x140..=0x144 | 0x180
        | 0x600 | 0x602..=0x604 | 0x643..=0x645 | 0x64A | 0x680
        | 0x200 | 0x204 | 0x205 | 0x240..=0x244 | 0x280
    )
}

/// What a register reads as, by its number.
pub fn read_csr(p: &Priv, csr: u16) -> u64
    requires { IsTrue (is_register csr) }
    ensures { result ≡ read_of csr p.now }
{
    registers!(reads, csr, p)
}

/// Writes a register by its number: each keeps the bits that it has, and a register that shows a part of another
/// changes that part of it. A write of a register that can't change leaves all as it was.
pub fn write_csr(p: &mut Priv, csr: u16, value: u64)
    requires { IsTrue (is_register csr) }
    ensures { p.new ≡ after_csr_write csr value p.old }
{
    registers!(written, csr, p value)
}

// The interrupts that VS sees, at their places in `mip`: those of VS that the hypervisor delegates, and a counter
// overflow that M and the hypervisor delegate.
fn shown_to_guest(p: &Priv) -> u64
    ensures { result ≡ shown p.now }
{
    (p.hideleg.get() & 0x444) | (p.mideleg.get() & p.hideleg.get() & 0x2000)
}

// Interrupts as VS sees them: those of VS at the places of S, one below.
fn lowered_word(word: u64) -> u64
    ensures { result ≡ lowered word }
{
    ((word & 0x444) / 2) | (word & 0x2000)
}

// Interrupts that VS writes, at their places in `mip`.
fn lifted_word(word: u64) -> u64
    ensures { result ≡ lifted word }
{
    ((word & 0x222) * 2) | (word & 0x2000)
}
