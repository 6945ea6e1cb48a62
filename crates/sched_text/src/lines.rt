//! One line: looked for in the bytes in hand, and read as far as it goes.

ghost use Rattle.std.specs.Prelude.{◌≡◌, ◌≤◌, ◌<◌, ◌+◌, [], false, length, IfOk};
ghost use Rattle.sched_text.specs.Causes.{is_failed};
ghost use Rattle.ctr_port.specs.Counts.{HasCause};
ghost use Rattle.ctr_port.specs.InHand.{Same};
ghost use Rattle.sched_text.specs.Lines.{line_at};
ghost use Rattle.sched_text.specs.InHand.{Sees, is_open, HasLine};

use crate::limits::{LINE_FEED, LINE_LIMIT, WINDOW};
use crate::window::Window;
use ctr_port::{Got, Source};

/// What the bytes in hand begin with.
#[derive(Clone, Copy)]
pub(crate) enum Seen {
    /// A line of so many bytes, and its line feed.
    Line(usize),
    /// 256 bytes, and no line feed among them.
    Long,
    /// Fewer bytes than that, and no line feed.
    Open,
}

pub(crate) fn line_in(hand: &[u8]) -> Seen
    ensures sees { Sees hand.now result }
    ensures short { result ≡ Seen.Open → length hand.now < LINE_LIMIT }
{
    for at in 0..LINE_LIMIT {
        if at == hand.len() {
            return Seen::Open;
        }
        if hand[at] == LINE_FEED {
            return Seen::Line(at);
        }
    }
    Seen::Long
}

/// Why there is no line.
#[derive(Clone, Copy)]
pub(crate) enum Stop {
    /// 256 bytes, and no line feed among them.
    Long,
    /// The input ended before the line feed.
    Cut,
    /// A read failed.
    Failed,
}

/// Reads until a line is in hand, at most so many bytes at once, and answers how many bytes it has.
/// It stays in hand, with its line feed. Where nothing was in hand and one byte is read at once,
/// nothing else is in hand then.
#[tactic(auto, using(ctr_port::proofs::InHand::same_self, ctr_port::proofs::InHand::same_given, ctr_port::proofs::InHand::same_kept))]
pub(crate) fn read_line<S: Source>(
    window: &mut Window,
    source: &mut S,
    most: usize,
) -> Result<usize, Stop>
    requires some { 0 < most }
    ensures same { Same window.old (S.left source.old) window.new (S.left source.new) }
    ensures line { HasLine window.new (S.left source.new) result }
    ensures hand { length window.new ≤ WINDOW }
    ensures exact { most ≡ 1 → window.old ≡ [] → IfOk result (λ n. length window.new ≡ n + 1) }
    ensures cause { HasCause is_failed (S.faults source.old) (S.faults source.new) result }
    ensures still { is_open (line_at window.old) ≡ false → (window.new ≡ window.old)
        × (source.new ≡ source.old) }
{
    loop {
        match line_in(window.bytes()) {
            Seen::Line(count) => return Ok(count),
            Seen::Long => return Err(Stop::Long),
            Seen::Open => {}
        }
        match window.fill(source, most) {
            Got::Bytes(_) => {}
            Got::End => return Err(Stop::Cut),
            Got::Failed => return Err(Stop::Failed),
        }
    }
}
