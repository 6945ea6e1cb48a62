//! The memories of tasks, from their images.

ghost use Rattle.std.specs.Prelude.{◌≡◌, ◌≤◌, ℕ, List, ◌∷◌, ◌++◌, [], None, Some, length, All, OnOk};
ghost use Rattle.ctr_port.specs.Counts.{HasCause};
ghost use Rattle.ctr_port.specs.InHand.{text_of};
ghost use Rattle.rv_hart.specs.Facts.{AreBytes};
ghost use Rattle.rv_hart.specs.Memory.{memory_of};
ghost use Rattle.sched_text.specs.Causes.{is_read};
ghost use Rattle.sched_text.specs.Rows.{IsTask};
ghost use Rattle.sched_text.specs.Reader.{refusal_of};
ghost use Rattle.ctrsim_cli.specs.Parts.{MemoriesAnswer};

use ctr_port::{NoMemory, Source};
use replay_engine::TaskMems;
use rv_hart::TaskMem;
use sched_text::{ScheduleFault, ScheduleReader, TaskLine};
use std::alloc::Global;

/// Adds the memory of the next task: its image, and zeros after it.
pub(crate) fn add_memory(
    alloc: Global,
    mems: &mut TaskMems,
    image: &[u8],
    size: u32,
) -> Result<(), NoMemory>
    requires fits { length image.now ≤ size }
    requires small { size ≤ 1048576 }
    ensures added { OnOk result (mems.new ≡ mems.old ++ memory_of image.now size ∷ []) }
    ensures bytes { AreBytes image.now }
{
    let mem = TaskMem::new(alloc, image, size)?;
    mems.push(mem)
}

/// Reads the images of the tasks, behind the header, into the memories of the tasks.
pub(crate) fn read_memories<S: Source>(
    alloc: Global,
    reader: &mut ScheduleReader,
    source: &mut S,
    tasks: &[TaskLine],
) -> Result<TaskMems, ScheduleFault>
    requires open { reader.old.refused ≡ None }
    requires tasks { All IsTask tasks.now }
    ensures answer { MemoriesAnswer reader.old.line tasks.now
        (text_of reader.old.hand (S.left source.old))
        (text_of reader.new.hand (S.left source.new)) reader.new.hand result }
    ensures cause { HasCause is_read (S.faults source.old) (S.faults source.new) result }
    ensures open { OnOk result (reader.new.refused ≡ None) }
    ensures same { (reader.new.line ≡ reader.old.line)
        × (reader.new.commands ≡ reader.old.commands) × (reader.new.ended ≡ reader.old.ended) }
{
    let mut mems = TaskMems::new(alloc);
    for task in tasks {
        let image = reader.image(alloc, source, task.image)?;
        match add_memory(alloc, &mut mems, image.items(), task.mem) {
            Ok(()) => {}
            Err(_) => return Err(ScheduleFault::Memory),
        }
    }
    Ok(mems)
}
