// The choice of a thread, and the request of that thread.
ghost use Rattle.definitions.specs.Table.{table_of};
ghost use Rattle.choice.specs.Choosing.{SoundFor, Chooses};

use crate::counted::Counted;
use definitions::Move;
use layout::read_task;
use ready::move_in;

// What is chosen.
#[derive(Clone, Copy)]
pub struct Chosen {
    pub thread: u8,
    pub mv: Move,
    pub target: u8,
}

// "for the lowest-numbered thread that has one"
pub fn choose(table: &[u8], threads: usize) -> Option<Chosen>
    requires { SoundFor table.now threads }
    ensures { Chooses (table_of table.now) result }
{
    let counted = Counted { table, threads };
    let thread = counted.lowest_ready(0, threads)?;
    let phase = read_task(table, thread).phase;
    Some(Chosen {
        thread: thread as u8,
        mv: move_in(phase),
        target: counted.target_in(phase) as u8,
    })
}
