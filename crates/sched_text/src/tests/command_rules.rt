use super::{IMAGE, START, TASK, joined, refuses_each, repeat};
use crate::Reason;
use std::test::*;

// In place of a command line.
const COMMANDS: &[(&str, Reason)] = &[
    ("", Reason::Cut), // the line `end` is missing
    ("run 0 0 1", Reason::Cut),
    ("en", Reason::Cut),
    ("end", Reason::Cut),
    ("\n", Reason::NotWord),
    ("run\n", Reason::NotWord),
    ("run 0 0\n", Reason::NotWord),
    ("run 0 0 1 0\n", Reason::NotWord),
    ("run 0 0 1 \n", Reason::NotWord), // five words, the last of them empty
    ("run  0 0 1\n", Reason::NotWord),
    ("sample\n", Reason::NotWord),
    ("sample 0 0\n", Reason::NotWord),
    ("sample  0\n", Reason::NotWord),
    ("evict\n", Reason::NotWord),
    ("evict 0 0\n", Reason::NotWord),
    ("evict 0 \n", Reason::NotWord),
    ("end 0\n", Reason::NotWord),
    ("end \n", Reason::NotWord),
    (" end\n", Reason::NotWord),
    ("end\r\n", Reason::NotWord),
    ("END\n", Reason::NotWord),
    ("Run 0 0 1\n", Reason::NotWord),
    ("images\n", Reason::NotWord),
    ("irq 0 5 3\n", Reason::NotWord),
    ("task 4 8 0 4 0 0\n", Reason::NotWord),
    ("run x 0 1\n", Reason::NotNumber),
    ("run 0 x 1\n", Reason::NotNumber),
    ("run 0 0 x\n", Reason::NotNumber),
    ("run  0 0\n", Reason::NotNumber), // four words, the second of them empty
    ("run 0  1\n", Reason::NotNumber),
    ("run 0 0 \n", Reason::NotNumber),
    ("run a 0 1\n", Reason::NotNumber),
    ("run 0 0 1\r\n", Reason::NotNumber),
    ("run x 0 1000000001\n", Reason::NotNumber), // before the range
    ("sample x\n", Reason::NotNumber),
    ("sample \n", Reason::NotNumber),
    ("sample -1\n", Reason::NotNumber),
    ("sample 0x1\n", Reason::NotNumber),
    ("evict x\n", Reason::NotNumber),
    ("evict \n", Reason::NotNumber),
    ("evict 1e1\n", Reason::NotNumber),
    ("run 0 0 1000000001\n", Reason::Range),
    ("run 0 0 4294967296\n", Reason::Range), // 2^32
    ("run 0 0 4294967297\n", Reason::Range),
    ("run 0 0 18446744073709551616\n", Reason::Range), // 2^64
    ("run 99 99 1000000001\n", Reason::Range), // no hart and no task of these numbers is looked for
];

// A byte follows the line `end`.
const TRAILING: &[(&str, Reason)] = &[
    ("end\nx", Reason::Trailing),
    ("end\n\n", Reason::Trailing),
    ("end\n\0", Reason::Trailing),
    ("end\nend\n", Reason::Trailing),
];

#[test]
fn each_rule_refuses_the_first_and_a_later_command_line(rt: HostRuntime) -> Result<(), Fail> {
    let mut front = joined(rt.alloc(), &[START, TASK, IMAGE])?;
    refuses_each(&rt, rt.alloc(), &front, 6, 0, COMMANDS)?;
    refuses_each(&rt, rt.alloc(), &front, 7, 0, TRAILING)?;
    front.extend_from_slice(b"run 0 0 1\nsample 0\nevict 0\n")?;
    refuses_each(&rt, rt.alloc(), &front, 9, 3, COMMANDS)?;
    refuses_each(&rt, rt.alloc(), &front, 10, 3, TRAILING)
}

// Behind more command lines than the reader holds at once.
const BEHIND_MANY: &[(&str, Reason)] = &[
    ("", Reason::Cut),
    ("sample 0", Reason::Cut),
    ("sample\n", Reason::NotWord),
    ("sample x\n", Reason::NotNumber),
    ("run 0 0 1000000001\n", Reason::Range),
];

#[test]
fn each_rule_refuses_a_command_line_behind_many(rt: HostRuntime) -> Result<(), Fail> {
    let mut front = joined(rt.alloc(), &[START, TASK, IMAGE])?;
    repeat(&mut front, "sample 0\n", 500)?;
    refuses_each(&rt, rt.alloc(), &front, 506, 500, BEHIND_MANY)?;
    refuses_each(&rt, rt.alloc(), &front, 507, 500, TRAILING)
}
