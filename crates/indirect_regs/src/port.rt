//! A monitor's way to the registers of the unit.

ghost use Rattle.std.specs.Prelude.{◌≡◌, ℕ, ◌+◌, ◌^◌, ◌<◌};
ghost use Rattle.indirect_regs.specs.Unit.{UnitState, IsUnit, cleared_unit};
ghost use Rattle.indirect_regs.specs.Ports.{read, after_write, Selects, Legal};

/// A register of the control transfer unit as a monitor in Debug Mode names it. It has the rights of M.
#[derive(Clone, Copy, Debug, PartialEq, Eq)]
pub enum PortReg {
    /// `mctrctl`.
    Mctrctl,

    /// `vsctrctl`.
    Vsctrctl,

    /// `sctrdepth`: the code of the depth, from 0 to 4. Other codes change nothing.
    Depth,

    /// `sctrstatus`: WRPTR in bits 7:0 and FROZEN in bit 31.
    Status,

    /// `siselect`, 12 bits.
    Select,

    /// `sireg`: the source word of the entry that the select names, all 64 bits.
    From,

    /// `sireg2`: the target word of that entry, all 64 bits.
    To,

    /// `sireg3`: the code of its transfer type, 4 bits.
    Kind,
}

/// A monitor's port to a control transfer unit in Debug Mode. Each call but `accesses` counts as one access. Nothing that
/// is done through it is recorded.
///
/// A port means a unit, its number of accesses, and a rest. Of the rest it is known only whether two states of a port
/// have the same one.
pub trait CtrPort {
    ghost unit: { Self → UnitState };

    ghost count: { Self → ℕ };

    ghost same_rest: { Self → Self → Type 0 };

    /// What the register reads as. The registers of an entry want a select from 0x200 to 0x2FF.
    fn get(&mut self, reg: PortReg) -> u64
        requires room { count self.old < 2 ^ 63 }
        requires selects { Selects reg (unit self.old) }
        ensures value { result ≡ read reg (unit self.old) }
        ensures legal { Legal reg result }
        ensures shape { IsUnit (unit self.old) }
        ensures unit { unit self.new ≡ unit self.old }
        ensures count { count self.new ≡ count self.old + 1 }
        ensures rest { same_rest self.old self.new };

    /// Writes the register.
    fn set(&mut self, reg: PortReg, value: u64)
        requires room { count self.old < 2 ^ 63 }
        requires selects { Selects reg (unit self.old) }
        ensures unit { unit self.new ≡ after_write reg value (unit self.old) }
        ensures count { count self.new ≡ count self.old + 1 }
        ensures rest { same_rest self.old self.new };

    /// Makes every entry zero, as SCTRCLR does.
    fn clear(&mut self)
        requires room { count self.old < 2 ^ 63 }
        ensures unit { unit self.new ≡ cleared_unit (unit self.old) }
        ensures count { count self.new ≡ count self.old + 1 }
        ensures rest { same_rest self.old self.new };

    /// How many accesses there were.
    fn accesses(&self) -> u64
        ensures { result ≡ count self.now };

    ghost same_self: { (a : Self) → same_rest a a };

    ghost same_then: { (a b c : Self) → same_rest a b → same_rest b c → same_rest a c };
}
