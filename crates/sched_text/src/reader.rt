//! A schedule read from its source, call by call.

ghost use Rattle.std.specs.Prelude.{◌≡◌, ◌≢◌, ◌≤◌, ◌<◌, ◌+◌, None, Some, false, [], length};
ghost use Rattle.std.specs.Prelude.{IfOk};
ghost use Rattle.sched_text.specs.Causes.{is_read, is_command_read};
ghost use Rattle.ctr_port.specs.Counts.{HasCause};
ghost use Rattle.ctr_port.specs.InHand.{text_of};
ghost use Rattle.sched_text.specs.Commands.{command_at, needs_read};
ghost use Rattle.sched_text.specs.Header.{HeaderAnswer, IsHeader};
ghost use Rattle.sched_text.specs.Images.{ImageAnswer};
ghost use Rattle.sched_text.specs.Rows.{IsCommand};
ghost use Rattle.sched_text.specs.Reader.{fresh, CommandAnswer, schedule_fault, refusal, refusal_of};
ghost use Rattle.sched_text.specs.Reader.{count_after, ends_now};

use crate::commands::{is_end, next_command};
use crate::faults::{CommandFault, ScheduleFault};
use crate::header::read_header;
use crate::images::read_image;
use crate::limits::{MAX_COMMANDS, MAX_HEADER_LINES, WINDOW};
use crate::schedule::{Command, Header, Image};
use crate::window::Window;
use ctr_port::Source;
use std::alloc::Global;
use std::marker::Model;

/// A reader of the schedule text: `header` once and first, `image` once for each task in order,
/// then `command` until it answers `End`. After a refusal each call answers it again; after want of
/// memory no call is made.
#[derive(Drop)]
pub struct ScheduleReader {
    window: Window,
    line: u32,
    commands: u32,
    ended: bool,
    refused: Option<ScheduleFault>,
}

impl Model for ScheduleReader {
    ghost use Rattle.std.specs.Prelude.{◌≡◌, ◌≤◌, ◌+◌, None, false, length};
    ghost use Rattle.sched_text.specs.Reader.{Reader};
    ghost use Rattle.sched_text.specs.declared.limits.TheConstants.{WINDOW, MAX_HEADER_LINES};
    ghost use Rattle.sched_text.specs.declared.limits.TheConstants.{MAX_COMMANDS};

    ghost Value = { Reader };

    ghost view = { λ r. record {
      refused = r.refused;
      line = r.line;
      commands = r.commands;
      ended = r.ended;
      hand = r.window;
    } };

    ghost invariant = { λ r. (length r.window ≤ WINDOW) × (r.commands ≤ MAX_COMMANDS)
        × (r.line ≤ MAX_HEADER_LINES + 1 + r.commands)
        × (r.refused ≡ None → r.ended ≡ false → r.line ≤ MAX_HEADER_LINES + r.commands) };
}

impl ScheduleReader {
    /// A reader before the first line.
    pub fn new() -> ScheduleReader
        ensures { result ≡ fresh }
    {
        ScheduleReader {
            window: Window::new(),
            line: 0,
            commands: 0,
            ended: false,
            refused: None,
        }
    }

    /// A reader of a text that is commands alone: no header and no image comes before the first of
    /// them, whose line has the number 1.
    pub fn commands_only() -> ScheduleReader
        ensures { result ≡ fresh }
    {
        ScheduleReader::new()
    }

    /// The number of the line last begun, from 1; 0 before the first. Image bytes belong to no
    /// line.
    pub fn line(&self) -> u32
        ensures { result ≡ self.now.line }
    {
        self.line
    }

    /// The lines up to `images`. It is called once and first.
    pub fn header<S: Source>(
        &mut self,
        alloc: Global,
        source: &mut S,
    ) -> Result<Header, ScheduleFault>
        requires { self.old ≡ fresh }
        ensures heads { HeaderAnswer self.new.line (text_of self.old.hand (S.left source.old))
            (text_of self.new.hand (S.left source.new)) self.new.hand result }
        ensures sound { IfOk result IsHeader }
        ensures hand { length self.new.hand ≤ WINDOW }
        ensures cause { HasCause is_read (S.faults source.old) (S.faults source.new) result }
        ensures refused { self.new.refused ≡ refusal_of result }
        ensures none { (self.new.commands ≡ 0) × (self.new.ended ≡ false) }
    {
        match read_header(alloc, &mut self.window, source, &mut self.line) {
            Ok(header) => Ok(header),
            Err(fault) => {
                self.refused = Some(fault);
                Err(fault)
            }
        }
    }

    /// The next image, which has so many bytes: those that its task line says.
    pub fn image<S: Source>(
        &mut self,
        alloc: Global,
        source: &mut S,
        len: u32,
    ) -> Result<Image, ScheduleFault>
        requires { self.old.refused ≢ Some ScheduleFault.Memory }
        ensures images { self.old.refused ≡ None
            → ImageAnswer self.old.line len (text_of self.old.hand (S.left source.old))
            (text_of self.new.hand (S.left source.new)) self.new.hand result }
        ensures size { IfOk result (λ image. length image ≡ len) }
        ensures hand { length self.new.hand ≤ WINDOW }
        ensures cause { self.old.refused ≡ None
            → HasCause is_read (S.faults source.old) (S.faults source.new) result }
        ensures still { len ≤ length self.old.hand → source.new ≡ source.old }
        // No byte behind the image is taken from the source.
        ensures exact { IfOk result (λ _. length self.old.hand ≤ len → self.new.hand ≡ []) }
        ensures again { (fault : ScheduleFault) → self.old.refused ≡ Some fault
            → (result ≡ Err fault) × (self.new ≡ self.old) × (source.new ≡ source.old) }
        ensures refused { self.new.refused ≡ refusal_of result }
        ensures same { (self.new.line ≡ self.old.line) × (self.new.commands ≡ self.old.commands)
            × (self.new.ended ≡ self.old.ended) }
    {
        if let Some(fault) = self.refused {
            return Err(fault);
        }
        match read_image(alloc, &mut self.window, source, self.line, len) {
            Ok(image) => Ok(image),
            Err(fault) => {
                self.refused = Some(fault);
                Err(fault)
            }
        }
    }

    /// The next command. After `End` no further command is asked for.
    pub fn command<S: Source>(&mut self, source: &mut S) -> Result<Command, CommandFault>
        requires memory { self.old.refused ≢ Some ScheduleFault.Memory }
        requires goes_on { self.old.refused ≡ None → self.old.ended ≡ false }
        ensures shows { self.old.refused ≡ None
            → CommandAnswer (command_at (self.old.line + 1) self.old.commands)
            (text_of self.old.hand (S.left source.old))
            (text_of self.new.hand (S.left source.new)) self.new.hand result }
        ensures range { IfOk result IsCommand }
        ensures most { self.new.commands ≤ MAX_COMMANDS }
        ensures hand { length self.new.hand ≤ WINDOW }
        ensures fewer { IfOk result (λ _. length self.new.hand < WINDOW) }
        ensures cause { self.old.refused ≡ None
            → HasCause is_command_read (S.faults source.old) (S.faults source.new) result }
        ensures still { needs_read self.old.hand ≡ false → source.new ≡ source.old }
        ensures again { (fault : CommandFault) → self.old.refused ≡ Some (schedule_fault fault)
            → (result ≡ Err fault) × (self.new ≡ self.old) × (source.new ≡ source.old) }
        ensures refused { self.new.refused ≡ refusal result }
        ensures line { self.old.refused ≡ None → self.new.line ≡ self.old.line + 1 }
        ensures count { self.old.refused ≡ None
            → self.new.commands ≡ count_after self.old.commands result }
        ensures ended { self.old.refused ≡ None → self.new.ended ≡ ends_now result }
    {
        if let Some(fault) = self.refused {
            return Err(command_fault(fault));
        }
        self.line += 1;
        let result = next_command(&mut self.window, source, self.line, self.commands);
        match result {
            Ok(command) => {
                if is_end(&command) {
                    self.ended = true;
                } else {
                    self.commands += 1;
                }
            }
            Err(fault) => self.refused = Some(schedule_fault(fault)),
        }
        result
    }
}

// A refusal among those of `command`.
fn command_fault(fault: ScheduleFault) -> CommandFault
    requires { fault ≢ ScheduleFault.Memory }
    ensures { schedule_fault result ≡ fault }
{
    match fault {
        ScheduleFault::Line(line) => CommandFault::Line(line),
        ScheduleFault::ReadFault => CommandFault::ReadFault,
        ScheduleFault::Memory => unreachable!(),
    }
}

// A refusal of `command` among those of the whole schedule.
pub(crate) fn schedule_fault(fault: CommandFault) -> ScheduleFault
    ensures { result ≡ schedule_fault fault }
{
    match fault {
        CommandFault::Line(line) => ScheduleFault::Line(line),
        CommandFault::ReadFault => ScheduleFault::ReadFault,
    }
}
