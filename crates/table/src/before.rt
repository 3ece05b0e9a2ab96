// The chains before a record.
ghost use Rattle.std.specs.Prelude.{◌≡◌, ◌+◌, ◌<◌, set, length};
ghost use Rattle.table.specs.Limits.{max_chains, max_tasks, max_all_tasks};
ghost use Rattle.table.specs.Read.{empty};
ghost use Rattle.table.specs.Code.Before.{Keeps};

use crate::Table;

// What a record is judged by of the chains before it: the ids that they bear, how many they are, and their tasks in all.
#[derive(Clone, Copy)]
pub struct Before {
    pub ids: [u16; Table::CHAINS],
    pub count: usize,
    pub tasks: usize,
}

impl Before {
    // No chain.
    pub fn nothing() -> Self
        ensures { Keeps result empty }
    {
        Before {
            ids: [0u16; Table::CHAINS],
            count: 0,
            tasks: 0,
        }
    }

    // One chain more, with this id and so many tasks.
    pub fn add(&mut self, id: u16, tasks: usize)
        requires { (self.old.count < length self.old.ids) × (self.old.count < max_chains) × (self.old.tasks < max_all_tasks + 1) × (tasks < 256) }
        ensures { self.new ≡ record { ids = set self.old.ids self.old.count id; count = self.old.count + 1; tasks = self.old.tasks + tasks } }
    {
        self.ids[self.count] = id;
        self.count += 1;
        self.tasks += tasks;
    }
}
