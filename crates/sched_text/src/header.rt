//! The lines up to `images`, read from the text.

ghost use Rattle.std.specs.Prelude.{◌≡◌, ◌≤◌, ◌<◌, ◌+◌, ◌-◌, ◌^◌, length, IfOk};
ghost use Rattle.sched_text.specs.Causes.{is_read};
ghost use Rattle.ctr_port.specs.Counts.{HasCause};
ghost use Rattle.ctr_port.specs.InHand.{text_of};
ghost use Rattle.sched_text.specs.Header.{HeaderAnswer, IsHeader};
ghost use Rattle.sched_text.specs.Progress.{lines_of, is_done, Sound, OneLine};

use crate::faults::{LineFault, Reason, ScheduleFault};
use crate::limits::{MAX_ALL_IRQS, MAX_HEADER_LINES, WINDOW};
use crate::lines::{Stop, read_line};
use crate::progress::{Place, Progress, StepFault};
use crate::schedule::Header;
use crate::window::Window;
use ctr_port::Source;
use std::alloc::Global;

// One more line of the header, which has this number.
fn one_line<S: Source>(
    progress: &mut Progress,
    window: &mut Window,
    source: &mut S,
    line: u32,
) -> Result<(), ScheduleFault>
    requires sound { Sound progress.old }
    requires irqs { length progress.old.irqs ≤ MAX_ALL_IRQS + 1 }
    ensures line { OneLine line progress.old progress.new (text_of window.old (S.left source.old))
        (text_of window.new (S.left source.new)) window.new result }
    ensures count { IfOk result (λ _. lines_of progress.old < lines_of progress.new) }
    ensures few { IfOk result (λ _. length progress.new.irqs ≤ 65537) }
    ensures sound { IfOk result (λ _. Sound progress.new) }
    ensures hand { length window.new ≤ WINDOW }
    ensures cause { HasCause is_read (S.faults source.old) (S.faults source.new) result }
{
    let count = match read_line(window, source, WINDOW) {
        Ok(count) => count,
        Err(stop) => match stop {
            Stop::Long => {
                return Err(ScheduleFault::Line(LineFault {
                    line,
                    reason: Reason::LongLine,
                }));
            }
            Stop::Cut => {
                return Err(ScheduleFault::Line(LineFault {
                    line,
                    reason: Reason::Cut,
                }));
            }
            Stop::Failed => return Err(ScheduleFault::ReadFault),
        },
    };
    let stepped = progress.step(window.bytes().split_at(count).0);
    window.pass(count + 1);
    match stepped {
        Ok(()) => Ok(()),
        Err(fault) => match fault {
            StepFault::Refused(reason) => Err(ScheduleFault::Line(LineFault { line, reason })),
            StepFault::Memory => Err(ScheduleFault::Memory),
        },
    }
}

// Whether the images follow.
fn is_done(place: Place) -> bool
    ensures { result ≡ is_done place }
{
    matches!(place, Place::Images)
}

/// The lines up to `images`. `line` is the number of the line last begun, 0 before the first.
pub(crate) fn read_header<S: Source>(
    alloc: Global,
    window: &mut Window,
    source: &mut S,
    line: &mut u32,
) -> Result<Header, ScheduleFault>
    requires line { line.old ≡ 0 }
    requires hand { length window.old ≤ WINDOW }
    ensures heads { HeaderAnswer line.new (text_of window.old (S.left source.old))
        (text_of window.new (S.left source.new)) window.new result }
    ensures sound { IfOk result IsHeader }
    ensures most { line.new ≤ MAX_HEADER_LINES }
    ensures hand { length window.new ≤ WINDOW }
    ensures cause { HasCause is_read (S.faults source.old) (S.faults source.new) result }
{
    let mut progress = Progress::new(alloc);
    while !is_done(progress.place) {
        *line += 1;
        one_line(&mut progress, window, source, *line)?;
    }
    Ok(Header {
        harts: progress.harts,
        layout: progress.layout,
        branch: progress.branch,
        tasks: progress.tasks,
        irqs: progress.irqs.into_lines(),
    })
}
