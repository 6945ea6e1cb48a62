//! Tests of the engine over the ends in memory: schedules with the samples that they must give.
#![tactic(auto)]

#[cfg(test)]
mod engine;
