//! The rows of a report.

ghost use Rattle.std.specs.Prelude.{◌≡◌, [], ◌∷◌, ◌++◌, OnOk, OnErr, IfOk};
ghost use Rattle.std.specs.List.Sorted.{IsPermutation, IsSorted};
ghost use Rattle.ctr_report.specs.Rows.{row_cmp};

use ctr_port::NoMemory;
use std::alloc::Global;
use std::cmp::Ordering;
use std::marker::Model;

/// A source and a target, and how many branches have them.
#[derive(Clone, Copy, Debug, PartialEq, Eq)]
pub struct Row {
    /// How many branches there are; at least 1, in the rows of a report.
    pub count: u64,
    /// The address that they left.
    pub from: u64,
    /// The address that they went to.
    pub to: u64,
}

// Which of two rows comes first in a report: the one of the higher count, then of the lower source,
// then of the lower target.
fn order(a: &Row, b: &Row) -> Ordering
    ensures { result ≡ row_cmp a.now b.now }
{
    b.count
        .cmp(&a.count)
        .then(a.from.cmp(&b.from))
        .then(a.to.cmp(&b.to))
}

/// Rows. Contracts see the list of them.
#[derive(Debug, Drop)]
pub struct Rows {
    list: Vec<Row>,
}

impl Model for Rows {
    ghost use Rattle.std.specs.Prelude.{List};
    ghost use Rattle.ctr_report.specs.declared.rows.Row.{Row};

    ghost Value = { List Row };

    ghost view = { λ r. r.list.items };
}

impl Rows {
    /// No row. It takes no memory.
    pub fn new(alloc: Global) -> Self
        ensures { result ≡ [] }
    {
        Rows {
            list: Vec::new(alloc),
        }
    }

    /// No row, with room for so many.
    pub(crate) fn with_room(alloc: Global, count: usize) -> Result<Self, NoMemory>
        ensures { IfOk result (λ rows. rows ≡ []) }
    {
        Ok(Rows {
            list: Vec::with_capacity(alloc, count)?,
        })
    }

    /// Puts the rows in the order of a report.
    pub(crate) fn sort(&mut self)
        ensures permutation { IsPermutation self.old self.new }
        ensures sorted { IsSorted row_cmp self.new }
    {
        self.list.sort_unstable_by(|a, b| order(a, b));
    }

    /// Adds a row last, or leaves all as it was.
    pub fn push(&mut self, item: Row) -> Result<(), NoMemory>
        ensures ok { OnOk result (self.new ≡ self.old ++ item ∷ []) }
        ensures err { OnErr result (self.new ≡ self.old) }
    {
        self.list.push(item)?;
        Ok(())
    }

    /// The rows.
    pub fn items(&self) -> &[Row]
        ensures { result.now ≡ self.now }
    {
        self.list.as_slice()
    }
}
