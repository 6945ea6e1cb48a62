//! One command, read from the text.

ghost use Rattle.std.specs.Prelude.{◌≡◌, ◌≤◌, ◌<◌, ◌-◌, ◌^◌, false, [], length, IfOk};
ghost use Rattle.sched_text.specs.Causes.{is_command_read};
ghost use Rattle.ctr_port.specs.Counts.{HasCause};
ghost use Rattle.ctr_port.specs.InHand.{text_of};
ghost use Rattle.sched_text.specs.Commands.{is_end, command_at, needs_read};
ghost use Rattle.sched_text.specs.Rows.{IsCommand};
ghost use Rattle.sched_text.specs.Reader.{CommandAnswer, EndAnswer, end_answer};

use crate::faults::{CommandFault, LineFault, Reason};
use crate::limits::{MAX_COMMANDS, WINDOW};
use crate::lines::{Stop, read_line};
use crate::rows::command_row;
use crate::schedule::Command;
use crate::window::Window;
use ctr_port::{Got, Source};

/// Whether a command is the last.
pub(crate) fn is_end(command: &Command) -> bool
    ensures { result ≡ is_end command.now }
{
    matches!(command, Command::End)
}

// Looks past the line feed of `end`, where nothing may follow. The line has this number.
fn finish<S: Source>(window: &mut Window, source: &mut S, line: u32) -> Result<(), CommandFault>
    requires { line < 2 ^ 32 - 1 }
    ensures finishes { EndAnswer line (text_of window.old (S.left source.old))
        (text_of window.new (S.left source.new)) window.new result }
    ensures cause { HasCause is_command_read (S.faults source.old) (S.faults source.new) result }
    ensures still { 0 < length window.old → source.new ≡ source.old }
    ensures hand { length window.new ≤ WINDOW }
    ensures none { IfOk result (λ _. window.new ≡ []) }
{
    if window.bytes().len() > 0 {
        return Err(CommandFault::Line(LineFault {
            line: line + 1,
            reason: Reason::Trailing,
        }));
    }
    match window.fill(source, WINDOW) {
        Got::Bytes(_) => Err(CommandFault::Line(LineFault {
            line: line + 1,
            reason: Reason::Trailing,
        })),
        Got::End => Ok(()),
        Got::Failed => Err(CommandFault::ReadFault),
    }
}

// The answer of a call that read the line `end`.
fn last(finished: Result<(), CommandFault>) -> Result<Command, CommandFault>
    ensures { result ≡ end_answer finished }
{
    finished?;
    Ok(Command::End)
}

/// The next command, where its line has this number and so many command lines came before it.
#[tactic(auto, using(crate::proofs::CommandLaws::not_open))]
pub(crate) fn next_command<S: Source>(
    window: &mut Window,
    source: &mut S,
    line: u32,
    commands: u32,
) -> Result<Command, CommandFault>
    requires { line < 2 ^ 32 - 1 }
    ensures shows { CommandAnswer (command_at line commands)
        (text_of window.old (S.left source.old))
        (text_of window.new (S.left source.new)) window.new result }
    ensures cause { HasCause is_command_read (S.faults source.old) (S.faults source.new) result }
    ensures still { needs_read window.old ≡ false → source.new ≡ source.old }
    ensures range { IfOk result IsCommand }
    ensures hand { length window.new ≤ WINDOW }
    ensures fewer { IfOk result (λ _. length window.new < WINDOW) }
    ensures few { IfOk result (λ command. is_end command ≡ false → commands < MAX_COMMANDS) }
{
    let count = match read_line(window, source, WINDOW) {
        Ok(count) => count,
        Err(stop) => match stop {
            Stop::Long => {
                return Err(CommandFault::Line(LineFault {
                    line,
                    reason: Reason::LongLine,
                }));
            }
            Stop::Cut => {
                return Err(CommandFault::Line(LineFault {
                    line,
                    reason: Reason::Cut,
                }));
            }
            Stop::Failed => return Err(CommandFault::ReadFault),
        },
    };
    let row = command_row(window.bytes().split_at(count).0);
    window.pass(count + 1);
    let command = match row {
        Ok(command) => command,
        Err(reason) => return Err(CommandFault::Line(LineFault { line, reason })),
    };
    if is_end(&command) {
        return last(finish(window, source, line));
    }
    if commands >= MAX_COMMANDS {
        return Err(CommandFault::Line(LineFault {
            line,
            reason: Reason::TooMany,
        }));
    }
    Ok(command)
}
