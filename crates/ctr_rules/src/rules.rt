//! What a transfer does to the records: the recording table as code.

ghost use Rattle.std.specs.Prelude.{◌≡◌, ◌≢◌, ◌↔◌, ◌%◌, true, false};
ghost use Rattle.ctr_rules.specs.Admitted.{act_under, holds, NoRow, OneRow, act_by, row_of, view_of, IsEven, is_branch, RecordsItsOwn, AddressesByMode};
ghost use Rattle.ctr_rules.specs.FreezeBits.{freezes};
ghost use Rattle.ctr_rules.specs.Asked.{emulated_act};
ghost use Rattle.ctr_rules.specs.RowTable.{Row, act_of, record_of};
ghost use Rattle.ctr_rules.specs.declared.transfer.Transfer.{Transfer};
ghost use Rattle.std.specs.Prelude.{ℕ, Bool};

use crate::parts::{
    filter_register, is_enabled, is_external_enabled, is_freeze, is_inhibited, is_of_a_trap,
    is_target_enabled,
};
use crate::transfer::{Act, Record, Transfer};
use ctr_csrs::{Control, ControlBit};
use xfer_class::XferType;

/// What a transfer does to the records where `mctrctl` is `m`, `vsctrctl` is `vs` and FROZEN is `frozen`
/// (RISC-V Control Transfer Records 1.0, "Transfer Type Filtering", "RAS Emulation Mode", "External Traps" and "Freeze").
///
/// Only a branch can have been predicted wrongly.
#[inline(always)]
pub fn act(transfer: Transfer, m: Control, vs: Control, frozen: bool) -> Act
    requires misp { transfer.misp ≡ true → is_branch transfer.kind ≡ true }
    ensures is { result ≡ act_under transfer m vs frozen }
    ensures freeze { (result ≡ Act.Freeze) ↔ ((frozen ≡ false) × (freezes transfer m vs ≡ true)) }

    // The rows of the table stand in no order: whichever holds, its act is the answer.
    ensures row { (r : Row) → holds r transfer m vs frozen ≡ true → result ≡ act_of r transfer }
    ensures none { NoRow transfer m vs frozen → result ≢ Act.Freeze → result ≡ Act.Nothing }

    // What is recorded has the type of the transfer and its misprediction.
    ensures own { RecordsItsOwn transfer result }
    ensures even { transfer.source % 2 ≡ 0 → transfer.target % 2 ≡ 0 → IsEven result }
{
    if frozen {
        return Act::Nothing;
    }
    if is_freeze(transfer, m, vs) {
        return Act::Freeze;
    }
    recorded(transfer, m, vs)
}

// The act where FROZEN is clear and stays so: the rules in the order in which the standard has them.
#[inline(always)]
fn recorded(transfer: Transfer, m: Control, vs: Control) -> Act
    ensures { result ≡ act_by (row_of (view_of transfer m vs)) transfer }
{
    let from = is_enabled(transfer.from, m, vs);
    let to = is_target_enabled(transfer, from, m, vs);
    if !from && !to {
        // Most transfers where nothing is recorded end here.
        return Act::Nothing;
    }
    let filter = filter_register(transfer, m, vs);
    if filter.on(ControlBit::Rasemu) {
        // Calls, returns and swaps stay in their mode, so only one that is enabled counts.
        return if from && to {
            emulated(transfer)
        } else {
            Act::Nothing
        };
    }
    let is_trap = is_of_a_trap(transfer.kind);
    let is_external = is_trap && from && !to;
    if !is_external && is_inhibited(filter, transfer.kind) {
        return Act::Nothing;
    }
    if from && to {
        return Act::Push(record_of(transfer, transfer.source, transfer.target));
    }
    if to && is_trap {
        return Act::Push(record_of(transfer, 0, transfer.target));
    }
    if from && transfer.kind == XferType::TrapReturn {
        return Act::Push(record_of(transfer, transfer.source, 0));
    }
    if is_external && is_external_enabled(transfer.from, transfer.to, m, vs) {
        return Act::Push(record_of(transfer, transfer.source, 0));
    }
    Act::Nothing
}

// What a transfer within enabled modes does under return-stack emulation.
#[inline(always)]
fn emulated(transfer: Transfer) -> Act
    ensures { result ≡ emulated_act transfer }
{
    let whole = record_of(transfer, transfer.source, transfer.target);
    match transfer.kind {
        XferType::IndirectCall | XferType::DirectCall => Act::Push(whole),
        XferType::Return => Act::Pop,
        XferType::Swap => Act::Swap(whole),
        _ => Act::Nothing,
    }
}

#[inline(always)]
fn record_of(transfer: Transfer, source: u64, target: u64) -> Record
    ensures { result ≡ record_of transfer source target }
{
    Record {
        source,
        target,
        kind: transfer.kind,
        misp: transfer.misp,
    }
}

/// Laws of the table, of every transfer and all controls: a proof and no work.
pub fn row_laws()
    ensures one_row { OneRow }

    // The address of a mode that isn't enabled is recorded as 0, and no other address is.
    ensures addresses { AddressesByMode }
{}
