//! Tests of the top call over the ends in memory: schedules with the samples that they must give.
#![tactic(auto)]

#[cfg(test)]
mod call;
#[cfg(test)]
mod calls;
#[cfg(test)]
mod case;
#[cfg(test)]
mod demo;
#[cfg(test)]
mod failing;
#[cfg(test)]
mod fields;
#[cfg(test)]
mod guests;
#[cfg(test)]
mod hardware_index;
#[cfg(test)]
mod lines;
#[cfg(test)]
mod long;
#[cfg(test)]
mod memory;
#[cfg(test)]
mod mispredicted;
#[cfg(test)]
mod moves;
#[cfg(test)]
mod own_records;
#[cfg(test)]
mod periods;
#[cfg(test)]
mod show;
#[cfg(test)]
mod traps;
#[cfg(test)]
mod words;
