//! The transfer types and their numbers (RISC-V Control Transfer Records 1.0, "Transfer Types").

ghost use Rattle.std.specs.Prelude.{◌≡◌, ◌<◌};
ghost use Rattle.xfer_class.specs.Types.{code_of};

/// The type of a control transfer (RISC-V Control Transfer Records 1.0, transfer types). Each has a number;
/// 0, 6 and 7 name no type.
#[derive(Clone, Copy, Debug, PartialEq, Eq)]
pub enum XferType {
    /// 1
    Exception,
    /// 2
    Interrupt,
    /// 3: MRET or SRET
    TrapReturn,
    /// 4: a branch that wasn't taken
    NotTaken,
    /// 5: a branch that was taken
    Taken,
    /// 8
    IndirectCall,
    /// 9
    DirectCall,
    /// 10
    IndirectJump,
    /// 11
    DirectJump,
    /// 12: a coroutine swap
    Swap,
    /// 13
    Return,
    /// 14
    IndirectLinkJump,
    /// 15
    DirectLinkJump,
}

impl XferType {
    /// The number of the type, as the field of entries has it; below 16.
    #[inline(always)]
    pub fn code(self) -> u8
        ensures value { result ≡ code_of self }
        ensures below { result < 16 }
    {
        // The numbers run on in the order of the variants, but for 6 and 7.
        let place = self as u8;
        if place < 5 { place + 1 } else { place + 3 }
    }
}
