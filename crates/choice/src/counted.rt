// A table that passed test 1, and the searches over its threads, each from a lower number to a higher one.
ghost use Rattle.std.specs.Prelude.{ℕ, ◌≤◌, ◌≡◌, eqb};
ghost use Rattle.definitions.specs.Dispatch.{target_for};
ghost use Rattle.definitions.specs.Table.{table_of};
ghost use Rattle.definitions.specs.Threads.{lowest};
ghost use Rattle.dispatching.specs.Ready.{ready};
ghost use Rattle.choice.specs.Choosing.{CountedFor, IsLowestFrom};

use layout::{read_head, read_task};
use ready::is_ready;

// Its bytes, and its N.
#[derive(Clone, Copy)]
pub struct Counted<'a> {
    pub table: &'a [u8],
    pub threads: usize,
    ghost counted: { CountedFor table.now threads },
}

impl Counted<'_> {
    // The busy of the table's target, 0 where there is none.
    fn target_busy(&self) -> u8
        ensures { result ≡ (table_of self.now.table.now).busy (table_of self.now.table.now).target }
    {
        let target = read_head(self.table).target as usize;
        if target < self.threads {
            return read_task(self.table, target).busy;
        }
        0
    }

    // The lowest thread from `from` to `to` - 1 that is ready.
    pub fn lowest_ready(&self, from: usize, to: usize) -> Option<usize>
        requires { to ≤ self.now.threads }
        ensures { IsLowestFrom from to (ready (table_of self.now.table.now)) result }
    {
        let mutex = read_head(self.table).mutex;
        let busy = self.target_busy();
        (from..to).find(|&thread| is_ready(mutex, busy, read_task(self.table, thread).phase))
    }

    // The lowest thread with a forbidden, 0 or 1, and N where there is none.
    fn lowest_with(&self, flag: u8) -> usize
        ensures { result ≡ lowest (table_of self.now.table.now).threads (λ t. eqb ((table_of self.now.table.now).forbidden t) flag) }
    {
        (0..self.threads)
            .find(|&thread| read_task(self.table, thread).forbidden == flag)
            .unwrap_or(self.threads)
    }

    // The target of a thread by its phase, a number as in the definitions (Phases): "In 10 the target is the lowest thread with
    // forbidden 0, in 15 the lowest with forbidden 1."
    #[tactic(auto, unfolding(definitions::specs::Dispatch::target_for))]
    pub fn target_in(&self, phase: u8) -> usize
        ensures { (i : ℕ) → phase ≡ (table_of self.now.table.now).phase i → result ≡ target_for (table_of self.now.table.now) i }
    {
        match phase {
            10 => self.lowest_with(0),
            15 => self.lowest_with(1),
            _ => 0,
        }
    }
}
