//! Laws of commands on tasks and harts.

ghost use Rattle.std.specs.Prelude.{ℕ, List};
ghost use Rattle.replay_engine.specs.Breaks.{AcceptedOrBroken};
ghost use Rattle.replay_engine.specs.ByLine.{PlansSayHeaders, HeadersGiveTasks};
ghost use Rattle.replay_engine.specs.ByLine.{HeadersGiveSoundTasks};
ghost use Rattle.replay_engine.specs.HartsAt.{StandingHartsAreAt, ResidentsAreLone};
ghost use Rattle.replay_engine.specs.Laws.{MovesKeepStates, PresentsAreSteps, RunsJoin};
ghost use Rattle.replay_engine.specs.Laws.{PlacesAreTold, ResidentsAreTold, StatesAreLone};
ghost use Rattle.replay_engine.specs.Laws.{SamplesJoin, SamplesAreOwn, CommandsAddLittle};
ghost use Rattle.replay_engine.specs.Laws.{CountsLoosen, RefusalsAgree, HeadersGiveInterrupts};
ghost use Rattle.replay_engine.specs.Scheduled.{SamplesAreLone, HartsAreLone, SamplesAreGiven};

use rv_hart::lone_run_laws;

/// Laws of every schedule, command and present state: a proof and no work.
pub fn engine_laws()
    // Moves between harts and save areas leave every present state as it is.
    ensures moves { MovesKeepStates }

    // Steps of a present state are steps of its machine, and a run that is cut in two gives what
    // the whole gives.
    ensures steps { PresentsAreSteps }
    ensures runs { RunsJoin }

    // Where a task is after commands and who is on a hart, and which command is refused after
    // them.
    ensures places { PlacesAreTold }
    ensures on_harts { ResidentsAreTold }
    ensures refusals { RefusalsAgree }

    // Where engine and harts stand for commands, each task is in its lone run, at its own count.
    ensures states { StatesAreLone }

    // And the harts are what the commands and the lone runs make of them.
    ensures harts { StandingHartsAreAt }

    // A hart with a resident has the core and the records of the resident's lone run.
    ensures residents { ResidentsAreLone }

    // The samples of joined lists of commands are joined, and a task's are its own but for the
    // hart's number.
    ensures samples { SamplesJoin }
    ensures own { SamplesAreOwn }

    // What a header says of the harts, the samples and each task, and the tasks that it gives with
    // their images, each told of the task's own line.
    ensures plans { PlansSayHeaders }
    ensures tasks { HeadersGiveTasks }
    ensures sound { HeadersGiveSoundTasks }

    // The samples and the harts of commands, told of the header, the images and the lone runs.
    ensures scheduled { SamplesAreLone }
    ensures lone_harts { HartsAreLone }

    // Each sample is that of the task, the hart and an own count that its command says. Where the
    // software of the task wrote neither the pointer nor an entry since its buffer was emptied, it
    // shows the transfers that its history leaves unreturned, in their order.
    ensures given { SamplesAreGiven }

    // How far one command moves the counts.
    ensures counts { CommandsAddLittle }
    ensures loosen { CountsLoosen }

    // The irq lines of a header give each task interrupts, and nothing else becomes pending by
    // them.
    ensures interrupts { HeadersGiveInterrupts }

    // A schedule is accepted, or one line of it is refused first.
    ensures breaks { (text : List ℕ) → AcceptedOrBroken text }
{
    lone_run_laws();
}
