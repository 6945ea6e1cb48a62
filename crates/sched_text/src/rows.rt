//! What a single line says, by its words alone.

ghost use Rattle.std.specs.Prelude.{◌≡◌, ◌<◌, ◌≤◌, length, drop, true, IfOk};
ghost use Rattle.sched_text.specs.Lines.{words};
ghost use Rattle.sched_text.specs.Rows.{has_form, decimal, number_of, hexadecimal, version_of};
ghost use Rattle.sched_text.specs.Rows.{harts_of, layout_of, branch_of, task_numbers, task_of};
ghost use Rattle.sched_text.specs.Rows.{IsTask, irq_of, is_cause, run_of, IsCommand, command_of};
ghost use Rattle.perf_sample.specs.Layout.{IsLayout, IsBranchWord};
ghost use Rattle.sched_text.specs.Numbers.{kept};

use crate::faults::Reason;
use crate::limits::{MAX_IRQ_STEP, MAX_MEMORY, MAX_STEPS};
use crate::schedule::{Command, TaskLine};
use crate::words::{number, split_word, word_count};
use perf_sample::{HW_INDEX, Layout};

// The first words of the lines, which are the same in both versions.
pub(crate) const VERSION: &[u8] = b"ctr-schedule";

pub(crate) const HARTS: &[u8] = b"harts";

pub(crate) const LAYOUT: &[u8] = b"layout";

const BRANCH: &[u8] = b"branch";

pub(crate) const TASK: &[u8] = b"task";

pub(crate) const IRQ: &[u8] = b"irq";

pub(crate) const IMAGES: &[u8] = b"images";

const RUN: &[u8] = b"run";

const SAMPLE: &[u8] = b"sample";

const EVICT: &[u8] = b"evict";

const END: &[u8] = b"end";

/// Whether a line has this first word, and so many words.
pub(crate) fn has_form(line: &[u8], first: &[u8], count: usize) -> bool
    ensures form { result ≡ has_form line.now first.now count }
    ensures words { result ≡ true → length (words line.now) ≡ count }
{
    word_count(line) == count && split_word(line).0 == first
}

// The decimal number that the first word spells, and what follows the space after it.
fn decimal(line: &[u8]) -> Result<(u128, &[u8]), Reason>
    ensures number { number_of result ≡ decimal line.now 0 }
    ensures rest { IfOk result
        (λ r. 1 < length (words line.now) → words r.1.now ≡ drop 1 (words line.now)) }
{
    let (first, rest) = split_word(line);
    let number = number(first, 10).ok_or(Reason::NotNumber)?;
    Ok((number, rest))
}

// The same of a hexadecimal number.
fn hexadecimal(line: &[u8]) -> Result<(u128, &[u8]), Reason>
    ensures number { number_of result ≡ hexadecimal line.now 0 }
    ensures rest { IfOk result
        (λ r. 1 < length (words line.now) → words r.1.now ≡ drop 1 (words line.now)) }
{
    let (first, rest) = split_word(line);
    let number = number(first, 16).ok_or(Reason::NotNumber)?;
    Ok((number, rest))
}

/// The version of a schedule.
#[derive(Clone, Copy, PartialEq, Eq)]
pub(crate) enum Version {
    One,
    /// With a branch line.
    Two,
}

/// The line `ctr-schedule VERSION`.
pub(crate) fn version_row(line: &[u8]) -> Result<Version, Reason>
    ensures { result ≡ version_of line.now }
{
    if !has_form(line, VERSION, 2) {
        return Err(Reason::NotWord);
    }
    let (_, rest) = split_word(line);
    let (number, _) = decimal(rest)?;
    if number == 1 {
        return Ok(Version::One);
    }
    if number == 2 {
        return Ok(Version::Two);
    }
    Err(Reason::Range)
}

/// The line `harts N`.
pub(crate) fn harts_row(line: &[u8]) -> Result<u8, Reason>
    ensures harts { result ≡ harts_of line.now }
    ensures range { IfOk result (λ n. (1 ≤ n) × (n ≤ 16)) }
{
    if !has_form(line, HARTS, 2) {
        return Err(Reason::NotWord);
    }
    let (_, rest) = split_word(line);
    let (harts, _) = decimal(rest)?;
    if harts < 1 || harts > 16 {
        return Err(Reason::Range);
    }
    Ok(harts as u8)
}

/// The line `layout HEX`.
pub(crate) fn layout_row(line: &[u8]) -> Result<u64, Reason>
    ensures layout { result ≡ layout_of line.now }
    ensures range { IfOk result IsLayout }
{
    if !has_form(line, LAYOUT, 2) {
        return Err(Reason::NotWord);
    }
    let (_, rest) = split_word(line);
    let (bits, _) = hexadecimal(rest)?;
    if bits > u64::MAX as u128 || Layout::of(bits as u64).is_none() {
        return Err(Reason::Range);
    }
    Ok(bits as u64)
}

/// The line `branch HEX`.
pub(crate) fn branch_row(line: &[u8]) -> Result<u64, Reason>
    ensures branch { result ≡ branch_of line.now }
    ensures range { IfOk result IsBranchWord }
{
    if !has_form(line, BRANCH, 2) {
        return Err(Reason::NotWord);
    }
    let (_, rest) = split_word(line);
    let (bits, _) = hexadecimal(rest)?;
    if bits != 0 && bits != HW_INDEX as u128 {
        return Err(Reason::Range);
    }
    Ok(bits as u64)
}

/// The numbers of a task line, which may be outside their ranges.
#[derive(Clone, Copy)]
pub(crate) struct TaskNumbers {
    pub(crate) image: u128,
    pub(crate) mem: u128,
    pub(crate) depth: u128,
    pub(crate) mctrctl: u128,
    pub(crate) vsctrctl: u128,
    pub(crate) period: u128,
}

fn task_numbers(line: &[u8]) -> Result<TaskNumbers, Reason>
    requires { length (words line.now) ≡ 7 }
    ensures { result ≡ task_numbers line.now }
{
    let (_, rest) = split_word(line);
    let (image, rest) = decimal(rest)?;
    let (mem, rest) = decimal(rest)?;
    let (depth, rest) = decimal(rest)?;
    let (mctrctl, rest) = hexadecimal(rest)?;
    let (vsctrctl, rest) = hexadecimal(rest)?;
    let (period, _) = decimal(rest)?;
    Ok(TaskNumbers {
        image,
        mem,
        depth,
        mctrctl,
        vsctrctl,
        period,
    })
}

/// The line `task IMAGE MEM DEPTH MCTRCTL VSCTRCTL PERIOD`.
pub(crate) fn task_row(line: &[u8]) -> Result<TaskLine, Reason>
    ensures task { result ≡ task_of line.now }
    ensures range { IfOk result IsTask }
{
    if !has_form(line, TASK, 7) {
        return Err(Reason::NotWord);
    }
    let n = task_numbers(line)?;
    if n.mem < 4 || n.mem > MAX_MEMORY as u128 || n.mem % 4 != 0 || n.image > n.mem || n.depth > 4 {
        return Err(Reason::Range);
    }
    if n.mctrctl > u64::MAX as u128
        || n.vsctrctl > u64::MAX as u128
        || n.period > MAX_STEPS as u128
    {
        return Err(Reason::Range);
    }
    Ok(TaskLine {
        image: n.image as u32,
        mem: n.mem as u32,
        depth: n.depth as u8,
        mctrctl: n.mctrctl as u64,
        vsctrctl: n.vsctrctl as u64,
        period: n.period as u32,
    })
}

// Whether a number is that of an interrupt.
fn is_cause(cause: u128) -> bool
    ensures { result ≡ is_cause cause }
{
    matches!(cause, 1 | 2 | 3 | 5 | 6 | 7 | 9 | 10 | 11 | 13)
}

/// A line `irq TASK STEP CAUSE` whose task may not be there.
#[derive(Clone, Copy)]
pub(crate) struct IrqWords {
    pub(crate) task: u64,
    pub(crate) step: u64,
    pub(crate) cause: u8,
}

pub(crate) fn irq_row(line: &[u8]) -> Result<IrqWords, Reason>
    ensures irq { result ≡ irq_of line.now }
    ensures range { IfOk result (λ irq. (irq.step ≤ MAX_IRQ_STEP) × (is_cause irq.cause ≡ true)) }
{
    if !has_form(line, IRQ, 4) {
        return Err(Reason::NotWord);
    }
    let (_, rest) = split_word(line);
    let (task, rest) = decimal(rest)?;
    let (step, rest) = decimal(rest)?;
    let (cause, _) = decimal(rest)?;
    if step > MAX_IRQ_STEP as u128 || !is_cause(cause) {
        return Err(Reason::Range);
    }
    Ok(IrqWords {
        task: kept(task),
        step: step as u64,
        cause: cause as u8,
    })
}

// A number without a range of its own, as it is kept.
fn kept(number: u128) -> u64
    ensures { result ≡ kept number }
{
    number.min(u64::MAX as u128) as u64
}

/// A line after the images.
pub(crate) fn command_row(line: &[u8]) -> Result<Command, Reason>
    ensures command { result ≡ command_of line.now }
    ensures range { IfOk result IsCommand }
{
    let count = word_count(line);
    let (first, rest) = split_word(line);
    if count == 4 && first == RUN {
        return run_row(line);
    }
    if count == 2 && first == SAMPLE {
        let (task, _) = decimal(rest)?;
        return Ok(Command::Sample { task: kept(task) });
    }
    if count == 2 && first == EVICT {
        let (hart, _) = decimal(rest)?;
        return Ok(Command::Evict { hart: kept(hart) });
    }
    if count == 1 && first == END {
        return Ok(Command::End);
    }
    Err(Reason::NotWord)
}

fn run_row(line: &[u8]) -> Result<Command, Reason>
    requires { length (words line.now) ≡ 4 }
    ensures run { result ≡ run_of line.now }
    ensures range { IfOk result IsCommand }
{
    let (_, rest) = split_word(line);
    let (hart, rest) = decimal(rest)?;
    let (task, rest) = decimal(rest)?;
    let (steps, _) = decimal(rest)?;
    if steps > MAX_STEPS as u128 {
        return Err(Reason::Range);
    }
    Ok(Command::Run {
        hart: kept(hart),
        task: kept(task),
        steps: steps as u32,
    })
}
