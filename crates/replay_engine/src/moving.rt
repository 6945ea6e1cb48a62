// A task comes to a hart and leaves it.
ghost use Rattle.std.specs.Prelude.{◌≡◌, ◌+◌, ◌*◌, ◌≤◌, ◌^◌, Some, None};
ghost use Rattle.ctr_csrs.specs.Depths.{entries_of};
ghost use Rattle.task_switch.specs.Costs.{save_cost, restore_cost};
ghost use Rattle.task_switch.specs.SaveArea.{area_of, unit_in, IsWhole};
ghost use Rattle.task_switch.specs.WhilePassing.{with_last_select};

use crate::task::Task;
use rv_hart::{Hart, Store};
use task_switch::{restore, save};

// Saves the task that is on a hart.
pub(crate) fn take_off(hart: &mut Hart<Store>, task: &mut Task)
    requires { hart.old.accesses ≤ 2 ^ 62 }
    ensures hart { hart.new ≡ record hart.old {
      core = task.old.core;
      unit = with_last_select hart.old.unit;
      accesses = hart.old.accesses + save_cost (entries_of hart.old.unit.stack.depth);
      resident = None;
    } }
    ensures task { task.new ≡ record task.old {
      core = hart.old.core;
      area =
          area_of hart.old.unit;
      place = None;
    } }
    ensures holds { unit_in task.new.area ≡ hart.old.unit }
    ensures whole { IsWhole task.new.area }
{
    save(hart, &mut task.area);
    hart.swap_core(&mut task.core);
    hart.set_resident(None);
    task.place = None;
}

// Restores a task on a hart.
pub(crate) fn put_on(hart: &mut Hart<Store>, h: u8, task: &mut Task, t: u8)
    requires { hart.old.accesses ≤ 2 ^ 62 }
    ensures hart { hart.new ≡ record hart.old {
      core = task.old.core;
      unit =
          unit_in task.old.area;
      accesses =
          hart.old.accesses + restore_cost (entries_of task.old.area.depth);
      resident = Some t;
    } }
    ensures task { task.new ≡ record task.old { core = hart.old.core; place = Some h } }
    ensures whole { IsWhole task.new.area }
{
    restore(hart, &task.area);
    hart.swap_core(&mut task.core);
    hart.set_resident(Some(t));
    task.place = Some(h);
}
