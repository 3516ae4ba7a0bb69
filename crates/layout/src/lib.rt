// Where the bytes of a table stand, and the byte table as a storage: its head and its tasks, read and written by value. What
// decides works on these, and knows of no bytes. Each of the four functions asks `Sized` of the bytes: a struct that keeps this
// fact would be two, one over bytes that are read and one over bytes that are written.
#![tactic(auto)]

ghost use Rattle.std.specs.Prelude.{◌<◌, ◌^◌, ◌≡◌};
ghost use Rattle.definitions.specs.Table.{size, phase_at, busy_at, forbidden_at, table_of, byte_table};
ghost use Rattle.theory.specs.Tables.{Sized, head_of, task_of, put_head, put_task};

use definitions::{Head, MOST_THREADS, Task};

// "Byte 0 is N, byte 1 the mutex (0 or 1), byte 2 the target"
pub const THREADS_AT: usize = 0;

pub const MUTEX_AT: usize = 1;

pub const TARGET_AT: usize = 2;

// "Then for each thread: phase, busy, forbidden.": where its three bytes begin.
pub fn phase_at(thread: usize) -> usize
    requires { thread < 2 ^ 16 }
    ensures { result ≡ phase_at thread }
{
    3 + 3 * thread
}

pub fn busy_at(thread: usize) -> usize
    requires { thread < 2 ^ 16 }
    ensures { result ≡ busy_at thread }
{
    4 + 3 * thread
}

pub fn forbidden_at(thread: usize) -> usize
    requires { thread < 2 ^ 16 }
    ensures { result ≡ forbidden_at thread }
{
    5 + 3 * thread
}

// "3 + 3N bytes": up to where a thread N would begin.
pub fn size_of(threads: usize) -> usize
    requires { threads < 2 ^ 16 }
    ensures { result ≡ size threads }
{
    phase_at(threads)
}

// The bytes of the largest table.
pub const MOST_SIZE: usize = 3 + 3 * MOST_THREADS as usize;

pub fn read_head(table: &[u8]) -> Head
    requires { Sized table.now }
    ensures { result ≡ head_of (table_of table.now) }
{
    Head {
        threads: table[THREADS_AT],
        mutex: table[MUTEX_AT],
        target: table[TARGET_AT],
    }
}

pub fn read_task(table: &[u8], thread: usize) -> Task
    requires { Sized table.now × (thread < (table_of table.now).threads) }
    ensures { result ≡ task_of (table_of table.now) thread }
{
    Task {
        phase: table[phase_at(thread)],
        busy: table[busy_at(thread)],
        forbidden: table[forbidden_at(thread)],
    }
}

// N stays.
#[tactic(auto, unfolding(definitions::specs::Table::stored))]
pub fn write_head(table: &mut [u8], head: Head)
    requires { Sized table.old }
    ensures { table.new ≡ put_head byte_table table.old head }
{
    table[MUTEX_AT] = head.mutex;
    table[TARGET_AT] = head.target;
}

#[tactic(auto, unfolding(definitions::specs::Table::stored))]
pub fn write_task(table: &mut [u8], thread: usize, task: Task)
    requires { Sized table.old × (thread < (table_of table.old).threads) }
    ensures { table.new ≡ put_task byte_table table.old thread task }
{
    table[phase_at(thread)] = task.phase;
    table[busy_at(thread)] = task.busy;
    table[forbidden_at(thread)] = task.forbidden;
}
