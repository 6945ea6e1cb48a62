//! Branches counted by pairs, and their rows. The counts are by hand.

ghost use Rattle.std.specs.Prelude.{◌≡◌};
ghost use Rattle.ctr_report.specs.Report.{total};

use super::*;
use ctr_port::NoMemory;
use perf_sample::Branch;
use std::alloc::Global;
use std::process::Abort;
use std::test::*;

// A report with the number of branches that were counted.
#[derive(Drop)]
struct Tally {
    report: Report,
    number: u64,
    ghost all: { total report ≡ number },
}

fn new_tally(alloc: Global) -> Tally {
    Tally {
        report: Report::new(alloc),
        number: 0,
    }
}

fn add(rt: &impl Abort, tally: &mut Tally, branch: Branch) -> Result<(), ReportFault> {
    assert!(rt; tally.number < 1 << 32);
    match tally.report.add(branch) {
        Ok(()) => {
            tally.number += 1;
            Ok(())
        }
        Err(fault) => Err(fault),
    }
}

const TOP: u64 = 0xFFFF_FFFF_FFFF_FFFF;

// Branches from address to address, the rows that they must have, and why.
struct Case {
    what: &'static str,
    pairs: &'static [(u64, u64)],
    rows: &'static [Line],
}

// A row: count, source, target.
type Line = (u64, u64, u64);

// Whether the rows are these.
fn are(rt: &impl Abort, rows: &Rows, lines: &[Line], what: &str) {
    assert_eq!(rt; rows.items().len(), lines.len(), "{what}");
    for (row, line) in rows.items().iter().zip(lines) {
        assert_eq!(rt; (row.count, row.from, row.to), *line, "{what}");
    }
}

const CASES: &[Case] = &[
    Case {
        what: "no branch",
        pairs: &[],
        rows: &[],
    },
    Case {
        what: "one branch from 0 to 0",
        pairs: &[(0, 0)],
        rows: &[(1, 0, 0)],
    },
    Case {
        what: "the higher count first, whatever the addresses",
        pairs: &[(1, 1), (9, 9), (5, 5), (9, 9), (5, 5), (9, 9)],
        rows: &[(3, 9, 9), (2, 5, 5), (1, 1, 1)],
    },
    Case {
        what: "of one count the lower source first, whatever the targets",
        pairs: &[(8, 1), (4, 3), (6, 2), (4, 3), (8, 1), (6, 2)],
        rows: &[(2, 4, 3), (2, 6, 2), (2, 8, 1)],
    },
    Case {
        what: "of one count and source the lower target first",
        pairs: &[(4, 9), (4, 7), (4, 8)],
        rows: &[(1, 4, 7), (1, 4, 8), (1, 4, 9)],
    },
    Case {
        what: "sources of one target, and targets of one source, are pairs of their own",
        pairs: &[(1, 3), (2, 3), (1, 2), (1, 3), (2, 3), (1, 3)],
        rows: &[(3, 1, 3), (2, 2, 3), (1, 1, 2)],
    },
    Case {
        what: "there and back are two pairs",
        pairs: &[(2, 1), (1, 2), (2, 1)],
        rows: &[(2, 2, 1), (1, 1, 2)],
    },
    Case {
        what: "the highest and the lowest addresses",
        pairs: &[(TOP, TOP), (TOP, 0), (0, TOP), (0, 0), (TOP, 0)],
        rows: &[(2, TOP, 0), (1, 0, 0), (1, 0, TOP), (1, TOP, TOP)],
    },
    Case {
        what: "addresses that differ in their high halves alone",
        pairs: &[(0x1_0000_0004, 8), (4, 0x1_0000_0008), (4, 8)],
        rows: &[(1, 4, 8), (1, 4, 0x1_0000_0008), (1, 0x1_0000_0004, 8)],
    },
    Case {
        what: "a loop of two branches around another",
        pairs: &[
            (0x8000_0020, 0x8000_0000),
            (0x8000_0018, 0x8000_0020),
            (0x8000_0020, 0x8000_0000),
            (0x8000_0018, 0x8000_0020),
            (0x8000_001C, 0x8000_0000),
            (0x8000_0020, 0x8000_0000),
            (0x8000_0018, 0x8000_0020),
            (0x8000_0020, 0x8000_0000),
            (0x8000_0018, 0x8000_0020),
            (0x8000_001C, 0x8000_0000),
        ],
        rows: &[
            (4, 0x8000_0018, 0x8000_0020),
            (4, 0x8000_0020, 0x8000_0000),
            (2, 0x8000_001C, 0x8000_0000),
        ],
    },
];

fn has_rows(rt: &impl Abort, alloc: Global, case: &Case) -> Result<(), Fail> {
    let mut tally = new_tally(alloc);
    for (from, to) in case.pairs {
        let branch = Branch {
            from: *from,
            to: *to,
            flags: 0,
        };
        assert_eq!(rt; add(rt, &mut tally, branch), Ok(()), "{}", case.what);
    }
    let rows = tally.report.rows(alloc)?;
    are(rt, &rows, case.rows, case.what);
    Ok(())
}

#[test]
fn rows_come_by_count_then_source_then_target(rt: HostRuntime) -> Result<(), Fail> {
    for case in CASES {
        has_rows(&rt, rt.alloc(), case)?;
    }
    report_laws();
    Ok(())
}

#[test]
fn the_flags_of_a_branch_are_not_looked_at(rt: HostRuntime) -> Result<(), Fail> {
    let mut tally = new_tally(rt.alloc());
    for flags in [0, 1, 2, 0x20_0000, 0x40_0002, 0x1_FFFF_FFFF] {
        let branch = Branch {
            from: 0x8000_0000,
            to: 0x8000_0008,
            flags,
        };
        assert_eq!(rt; add(&rt, &mut tally, branch), Ok(()));
    }
    let rows = tally.report.rows(rt.alloc())?;
    are(&rt, &rows, &[(6, 0x8000_0000, 0x8000_0008)], "one pair");
    Ok(())
}

// The branch of a pair by its number: 1,024 sources with 1,024 targets each, neither in order.
fn numbered(number: u64) -> Branch {
    Branch {
        from: 4 * (number % 1024),
        to: 4 * (number / 1024 % 4096),
        flags: 0,
    }
}

#[test]
fn a_new_pair_is_refused_where_1048576_are_there(rt: HostRuntime) -> Result<(), Fail> {
    let mut tally = new_tally(rt.alloc());
    for number in 0..1_048_576 {
        assert_eq!(rt; add(&rt, &mut tally, numbered(number)), Ok(()));
    }
    let first = numbered(0);
    let last = numbered(1_048_575);
    // The source is known with other targets, the target with other sources, and neither.
    for (from, to) in [(first.from, TOP), (TOP, first.to), (TOP, TOP)] {
        let branch = Branch { from, to, flags: 0 };
        assert_eq!(rt; add(&rt, &mut tally, branch), Err(ReportFault::Pairs));
    }
    for branch in [last, last, first] {
        assert_eq!(rt; add(&rt, &mut tally, branch), Ok(()));
    }
    let rows = tally.report.rows(rt.alloc())?;
    assert_eq!(rt; rows.items().len(), 1_048_576);
    let front = [(3, 4092, 4092), (2, 0, 0), (1, 0, 4)];
    for (row, line) in rows.items().iter().zip(front) {
        assert_eq!(rt; (row.count, row.from, row.to), line);
    }
    Ok(())
}

#[test]
fn rows_keep_what_is_added_in_order(rt: HostRuntime) -> Result<(), NoMemory> {
    let mut rows = Rows::new(rt.alloc());
    for from in [3, 1, 2] {
        rows.push(Row {
            count: 1,
            from,
            to: 0,
        })?;
    }
    are(&rt, &rows, &[(1, 3, 0), (1, 1, 0), (1, 2, 0)], "as added");
    Ok(())
}
