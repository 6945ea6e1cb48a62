//! Harts, whatever they are, with an engine that performs commands on them.

ghost use Rattle.std.specs.Prelude.{◌≡◌, ℕ, ◌≤◌, List, [], length, IfOk, Result};
ghost use Rattle.ctr_port.specs.Counts.{HasCause};
ghost use Rattle.rv_hart.specs.Hart.{HartState, fresh_harts};
ghost use Rattle.sched_text.specs.Header.{IsHeader};
ghost use Rattle.sched_text.specs.Rows.{IsCommand};
ghost use Rattle.sched_text.specs.declared.schedule.Command.{Command};
ghost use Rattle.sched_text.specs.declared.schedule.Header.{Header};
ghost use Rattle.replay_engine.specs.HartSet.{GoesOn};
ghost use Rattle.replay_engine.specs.Outcome.{is_write_fault};
ghost use Rattle.replay_engine.specs.Scheduled.{AreHartsOf};
ghost use Rattle.replay_engine.specs.Start.{AreMemories, memories};
ghost use Rattle.replay_engine.specs.declared.fault.PerformFault.{PerformFault};

use crate::engine::Engine;
use crate::fault::PerformFault;
use crate::starting::TaskMems;
use ctr_port::{NoMemory, Sink};
use rv_hart::Harts;
use sched_text::{Command, Header};
use std::alloc::Global;

/// Harts with an engine of their own, which performs the commands of a schedule on them.
///
/// A caller that is generic in them knows nothing of what a command reads there before it performs
/// it, and can make no copy of them. So what it writes of the commands was read on the harts.
pub trait HartSet {
    /// What performs commands on the harts.
    type Engine: Drop;

    // the harts are as after a reset
    ghost fresh: { Self → Type 0 };

    // the harts tell what they hold, and what that is
    ghost tells: { Self → Type 0 };

    ghost held: { Self → List HartState };

    // engine and harts follow these commands, of a schedule with this header and these images
    ghost follows: { Header → List (List ℕ) → List Command → Self.Engine → Self → Type 0 };

    // a command with this answer made the second engine and harts of the first, and these bytes
    // were read on the harts in it
    ghost performed: { Self.Engine → Self → Command → Result (Unit {0}) PerformFault → List ℕ → Self.Engine → Self → Type 0 };

    /// The engine of a schedule before the first command, with a memory for each task, of the size
    /// that its line asks for. All memory that it ever takes is taken here.
    fn start(alloc: Global, header: Header, mems: TaskMems) -> Result<Self::Engine, NoMemory>
        requires header { IsHeader header }
        requires mems { AreMemories header.tasks mems }
        ensures begins { (images : List (List ℕ)) (harts : Self) →
            mems ≡ memories header.tasks images → fresh harts →
            IfOk result (λ e. follows header images [] e harts) };

    /// Performs a command on the harts, and writes its samples. At most 1,048,577 commands are.
    fn perform<K: Sink>(
        engine: &mut Self::Engine,
        command: Command,
        harts: &mut Self,
        sink: &mut K,
    ) -> Result<(), PerformFault>
        requires command { IsCommand command }
        requires follows { (h : Header) × (images : List (List ℕ)) × (cs : List Command)
            × (length cs ≤ 1048576) × follows h images cs engine.old harts.old }
        ensures read { (bytes : List ℕ)
            × performed engine.old harts.old command result bytes engine.new harts.new
            × K.gained sink.old bytes sink.new }
        ensures cause { HasCause is_write_fault (K.faults sink.old) (K.faults sink.new) result };

    /// Laws of every command on such harts: a proof and no work.
    fn laws()
        // How a command goes on after others.
        ensures goes_on { (h : Header) (images : List (List ℕ)) (cs : List Command)
            (e f : Self.Engine) (a b : Self) (c : Command) (r : Result (Unit {0}) PerformFault)
            (bytes : List ℕ) → follows h images cs e a → performed e a c r bytes f b →
            GoesOn follows tells held h images cs c bytes a f b r }

        // What the harts hold after commands.
        ensures lone { (h : Header) (images : List (List ℕ)) (cs : List Command) (e : Self.Engine)
            (a : Self) → follows h images cs e a → tells a → AreHartsOf h images cs (held a) }
        ensures held_fresh { (a : Self) → fresh a → tells a → held a ≡ fresh_harts };
}

impl HartSet for Harts {
    ghost use Rattle.rv_hart.specs.Hart.{fresh_harts};
    ghost use Rattle.replay_engine.specs.HartSet.{StandsBehind, IsPerformedOn};

    type Engine = Engine;

    ghost fresh = { λ a. a ≡ fresh_harts };

    ghost tells = { λ a. Unit {0} };

    ghost held = { λ a. a };

    ghost follows = { λ h images cs e a. StandsBehind h images cs e a };

    ghost performed = { λ e a c r bytes f b. IsPerformedOn e a c r bytes f b };

    fn start(alloc: Global, header: Header, mems: TaskMems) -> Result<Engine, NoMemory> {
        Engine::start(alloc, header, mems)
    }

    fn perform<K: Sink>(
        engine: &mut Engine,
        command: Command,
        harts: &mut Harts,
        sink: &mut K,
    ) -> Result<(), PerformFault> {
        engine.perform(command, harts, sink)
    }

    fn laws() {}
}
