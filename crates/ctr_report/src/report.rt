//! Branches counted by their pairs.

ghost use Rattle.std.specs.Prelude.{◌≡◌, ◌<◌, ◌+◌, ◌^◌, ◌↔◌, List, [], ◌∷◌, ◌++◌, length, map};
ghost use Rattle.std.specs.Prelude.{IsOk, OnOk, OnErr, IfOk, Err, sum_by};
ghost use Rattle.perf_sample.specs.declared.sample.Branch.{Branch};
ghost use Rattle.ctr_report.specs.Counting.{pair_count};
ghost use Rattle.ctr_report.specs.Report.{total, count_in, Counts, row_at};
ghost use Rattle.ctr_report.specs.Rows.{AreRows};
ghost use Rattle.ctr_report.specs.declared.report.ReportFault.{ReportFault};

use crate::rows::{Row, Rows};
use ctr_port::NoMemory;
use perf_sample::Branch;
use std::alloc::Global;
use std::collections::BTreeMap;
use std::marker::Model;

/// How many pairs a report has at most.
pub const MAX_PAIRS: usize = 1_048_576;

/// Why a branch isn't counted.
#[derive(Clone, Copy, Debug, PartialEq, Eq)]
pub enum ReportFault {
    /// The pair is new, and [`MAX_PAIRS`] are there.
    Pairs,
    /// The pair is new, and no memory was found for it.
    Memory,
}

/// Branches, counted by their pairs of source and target. Contracts see each pair with its count,
/// in the order of the sources and then of the targets.
#[derive(Drop)]
pub struct Report {
    counts: BTreeMap<(u64, u64), u64>,
}

impl Model for Report {
    ghost use Rattle.std.specs.Prelude.{ℕ, List, ◌≤◌, ◌<◌, length, All};
    ghost use Rattle.std.specs.BTreeMap.{IsOrdered};
    ghost use Rattle.std.specs.Map.{values_of};
    ghost use Rattle.ctr_report.specs.Report.{pair_cmp};
    ghost use Rattle.ctr_report.specs.declared.report.TheConstants.{MAX_PAIRS};

    ghost Value = { List ((ℕ × ℕ) × ℕ) };

    ghost view = { λ r. r.counts.entries };

    ghost invariant = { λ r. IsOrdered pair_cmp r.counts
        × All (λ n. 0 < n) (values_of r.counts.entries)
        × (length r.counts.entries ≤ MAX_PAIRS) };
}

impl Report {
    /// A report of no branch. It takes no memory.
    #[tactic(auto, using(crate::proofs::CountLemmas::counts_none))]
    pub fn new(alloc: Global) -> Report
        ensures empty { result ≡ [] }
        ensures counts { Counts [] result }
    {
        Report {
            counts: BTreeMap::new(alloc),
        }
    }

    /// Counts one more branch. Fewer than 2^63 were counted before. A branch that is refused leaves
    /// the report as it was.
    pub fn add(&mut self, branch: Branch) -> Result<(), ReportFault>
        requires { total self.old < 2 ^ 63 }
        ensures counts { OnOk result ((branches : List Branch)
            → Counts branches self.old → Counts (branches ++ branch ∷ []) self.new) }
        ensures total { OnOk result (total self.new ≡ total self.old + 1) }
        ensures pairs { (result ≡ Err ReportFault.Pairs)
            ↔ ((count_in branch.from branch.to self.old ≡ 0) × (length self.old ≡ MAX_PAIRS)) }
        // A pair that is there takes no memory.
        ensures known { 0 < count_in branch.from branch.to self.old → IsOk result }
        ensures err { OnErr result (self.new ≡ self.old) }
    {
        let pair = (branch.from, branch.to);
        if let Some(count) = self.counts.get_mut(&pair) {
            *count += 1;
            return Ok(());
        }
        if self.counts.len() >= MAX_PAIRS {
            return Err(ReportFault::Pairs);
        }
        let Ok(_) = self.counts.insert(pair, 1) else {
            return Err(ReportFault::Memory);
        };
        Ok(())
    }

    /// The rows of the branches that were counted.
    pub fn rows(&self, alloc: Global) -> Result<Rows, NoMemory>
        ensures rows { IfOk result (λ rows. (branches : List Branch)
            → Counts branches self.now → AreRows branches rows) }
        // The counts add up to the number of branches.
        ensures sum { IfOk result (λ rows. (branches : List Branch)
            → Counts branches self.now → sum_by (λ r. r.count) rows ≡ length branches) }
        ensures pairs { IfOk result (λ rows. (branches : List Branch)
            → Counts branches self.now → length rows ≡ pair_count branches) }
    {
        let mut rows = list_rows(alloc, &self.counts)?;
        rows.sort();
        Ok(rows)
    }
}

// The rows, in the order of their pairs, with room for them all from the beginning.
fn list_rows(alloc: Global, counts: &BTreeMap<(u64, u64), u64>) -> Result<Rows, NoMemory>
    ensures { IfOk result (λ rows. rows ≡ map row_at counts.now.entries) }
{
    let mut rows = Rows::with_room(alloc, counts.len())?;
    for (pair, count) in counts.iter() {
        rows.push(Row {
            count: *count,
            from: pair.0,
            to: pair.1,
        })?;
    }
    Ok(rows)
}
