/// A privilege mode of a hart with the hypervisor extension (RISC-V Privileged Architecture, "Hypervisor Extension",
/// privilege modes).
#[derive(Clone, Copy, Debug, PartialEq, Eq)]
pub enum Mode {
    /// Machine mode.
    M,

    /// Hypervisor-extended supervisor mode: supervisor mode with V=0.
    S,

    /// User mode with V=0.
    U,

    /// Virtual supervisor mode: supervisor mode with V=1.
    Vs,

    /// Virtual user mode: user mode with V=1.
    Vu,
}
