//! Laws of whole schedules.

ghost use Rattle.ctrsim_cli.specs.Laws.{AcceptedAsOne, SamplesAreOfLoneRuns, WrittenIsPrefix};
ghost use Rattle.ctrsim_cli.specs.Laws.{DemoIsAccepted};

use replay_engine::engine_laws;

/// Laws of every schedule: a proof and no work.
pub fn schedule_laws()
    // A text is accepted as one schedule, so it has one output.
    ensures one { AcceptedAsOne }

    // Each sample is one of its task's lone run, and shows what the run leaves unreturned.
    ensures lone { SamplesAreOfLoneRuns }

    // What is written before a write fails is a proper prefix of the whole output.
    ensures prefix { WrittenIsPrefix }

    // What `demo` performs is what `run` reads in its text, which is accepted.
    ensures demo { DemoIsAccepted }
{
    engine_laws();
}
