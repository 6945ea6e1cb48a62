//! Laws of a step, of the lone run of a task, and of the facts that states keep.

ghost use Rattle.std.specs.Prelude.{◌≡◌, ℕ, ◌^◌, ◌<◌, ◌%◌, List, length, slice_index};
ghost use Rattle.std.specs.List.{All};
ghost use Rattle.rv_hart.specs.Step.{next, events_of};
ghost use Rattle.rv_hart.specs.Facts.{IsCore, NextKeeps, StepsKeep, LoneRunKeeps, HistoryKeeps, HistoryReplays};
ghost use Rattle.rv_hart.specs.Executed.{TransfersRecordThemselves, TrapsRecordThemselves, StepsGoToTheirDestinations};
ghost use Rattle.rv_hart.specs.Ending.{EndingsByMode, EndingsByAddress, SctrclrClearsEntries, TrapsAndReturnsWriteNothing};
ghost use Rattle.rv_hart.specs.Frozen.{FrozenChanges, FreezesSetFrozen};
ghost use Rattle.rv_hart.specs.StepLaws.{ExceptionsWriteNothing, MemoryKeepsItsSize, NoStepChangesX0, AtMostOneEvent, AccessesWriteByNumber};
ghost use Rattle.guest_modes.specs.declared.causes.TheConstants.{INTERRUPTS};
ghost use Rattle.guest_modes.specs.Words.{IsWithin};
ghost use Rattle.indirect_regs.specs.Unit.{IsUnit};
ghost use Rattle.rv_hart.specs.Unreturned.{RecordsAreVisibleInRuns, ValidAreVisibleInRuns};
ghost use Rattle.rv_hart.specs.Task.{Task, Irq, AreInterrupts, causes};
ghost use Rattle.rv_hart.specs.Lone.{RunState, FollowsHistory, HaveSameState, StepsJoin, RunGoesOn, run_next, lone_run, first_state, after_steps};

use crate::processor::Core;
use guest_modes::priv_facts;

/// Laws of one step, of every state, instruction and number of interrupts: a proof and no work.
pub fn step_laws()
    ensures exceptions { ExceptionsWriteNothing }
    ensures size { MemoryKeepsItsSize }
    ensures zero { NoStepChangesX0 }
    ensures events { AtMostOneEvent }

    // A step that takes a trap, an interrupt among them, or returns from one leaves memory and registers as they were.
    ensures traps { TrapsAndReturnsWriteNothing }

    // How ECALL, EBREAK, MRET, SRET, SCTRCLR, WFI and the fences end, mode by mode.
    ensures endings { EndingsByMode }

    // How loads, stores, jumps and branches end by their address or target, in every mode.
    ensures addresses { EndingsByAddress }

    // CSR instructions write by the operation and the number of rs1 or the immediate alone.
    ensures accesses { AccessesWriteByNumber }

    // SCTRCLR makes every entry zero and leaves the rest of the unit, and so does a monitor's clear.
    ensures clear { SctrclrClearsEntries }

    // What is recorded of a jump, a branch or a return has its own address or 0, the next one or 0,
    // and the type of the instruction; of a branch type and misprediction are those of its outcome,
    // which is its condition on the registers before the step.
    ensures records { TransfersRecordThemselves }

    // What is recorded of a trap has the address at which it was taken or 0, that of its handler or
    // 0, and type 1 for an exception, 2 for an interrupt.
    ensures trap_records { TrapsRecordThemselves }

    // A step that takes no trap goes to the destination of its instruction.
    ensures destinations { StepsGoToTheirDestinations }

    // FROZEN changes by a breakpoint or a counter overflow into a mode whose own control register has
    // the freeze bit, which set it, or by a write of sctrstatus.
    ensures frozen { FrozenChanges }
    ensures freezes { FreezesSetFrozen }
{
    indirect_regs::register_laws();
}

/// Laws of the lone run of a task, of every task and number of steps: a proof and no work.
pub fn lone_run_laws()
    // The unit that a run begins with keeps to the facts of units: its controls are words that the registers can hold.
    ensures first { (t : Task) → IsUnit (first_state t).unit }

    // What becomes pending at a step of the run is what a step of a hart takes.
    ensures pending { (irqs : List Irq) (n : ℕ) → AreInterrupts irqs
        → IsWithin INTERRUPTS (causes irqs n) }

    // The record buffer of a lone run is what its history leaves: the depth, the list, and the pointer, which is counted.
    ensures follows { (t : Task) (n : ℕ) → FollowsHistory (lone_run t n) }

    // A step of any state whose record buffer is what its history leaves leads to such a state.
    ensures next_follows { (pending : ℕ) (t : RunState) → FollowsHistory t
        → FollowsHistory (run_next pending t) }

    // Two states that agree in the depth, the list, the pointer and all else agree after the same step, and its events
    // are the same.
    ensures agree { (pending : ℕ) (a b : RunState) → HaveSameState a b
        → HaveSameState (run_next pending a) (run_next pending b) }
    ensures events { (pending : ℕ) (a b : RunState) → HaveSameState a b → events_of pending a.state
        ≡ events_of pending b.state }

    // The state of a lone run is what as many steps make of the first state.
    ensures state { (t : Task) (n : ℕ) → (lone_run t n).state
        ≡ after_steps t.irqs 0 n (first_state t) }

    // So many steps and then so many more are their sum, of every state and of a lone run.
    ensures join { StepsJoin }
    ensures goes_on { RunGoesOn }

    // Where its software wrote neither WRPTR nor an entry since the buffer was emptied last, the
    // entries with V of a lone run, in their order, are those that its history leaves unreturned.
    ensures visible { ValidAreVisibleInRuns }

    // And entry k has V and holds a record exactly if the history leaves that record k entries
    // deep.
    ensures visible_records { RecordsAreVisibleInRuns }
{
    fact_laws();
    ctr_buffer::visible_laws();
}

/// What steps keep of the facts of a state, and what the history of a lone run holds: a proof and no work.
pub fn fact_laws()
    ensures next { NextKeeps }
    ensures steps { StepsKeep }
    ensures run { LoneRunKeeps }

    // Each recorded transfer has V.
    ensures history { HistoryKeeps }
    ensures replays { HistoryReplays }
{
    rv_decode::word_laws();
}

/// The facts of a core, from its types: a proof and no work.
pub fn core_facts(core: &Core)
    ensures { IsCore core.now }
{
    core_words(core);
    core_place(core);
    priv_facts(&core.csrs);
}

fn core_words(core: &Core)
    ensures { All (λ n. n < 2 ^ 64) core.now.x }
{
    let words: &[u64] = &core.x;
    register_words(words);
}

fn register_words(words: &[u64])
    ensures { All (λ n. n < 2 ^ 64) words.now }
{}

fn core_place(core: &Core)
    ensures fits { core.now.pc < 2 ^ 64 }
    ensures aligned { core.now.pc % 4 ≡ 0 }
    ensures full { length core.now.x ≡ 32 }
    ensures zero { slice_index core.now.x 0 ≡ 0 }
{
    let _pc = core.pc;
}
