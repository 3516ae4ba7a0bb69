// A fresh table: "A fresh table has mutex 0, target 255, all else 0."
ghost use Rattle.std.specs.Prelude.{◌≡◌, length};
ghost use Rattle.definitions.specs.Answers.{answer_reply};
ghost use Rattle.definitions.specs.Table.{size, fresh, fresh_entry};
ghost use Rattle.basics.specs.Outputs.{Delivered};

use codes::count_fits;
use definitions::{NO_TARGET, Refusal, Refused};
use layout::{TARGET_AT, THREADS_AT, size_of};

// Written over bytes of its size.
#[tactic(auto, unfolding(definitions::specs::Table::fresh))]
fn write_fresh(threads: u8, table: &mut [u8])
    requires { length table.old ≡ size threads }
    ensures { table.new ≡ fresh threads }
{
    table.fill(0);
    table[THREADS_AT] = threads;
    table[TARGET_AT] = NO_TARGET;
}

// A fresh table for N threads. Its size is answered.
pub fn fresh(threads: u16, out: &mut [u8]) -> Result<usize, Refused>
    ensures { Delivered (fresh_entry threads) out.old out.new (answer_reply result) }
{
    let count = threads as usize;
    if !count_fits(count) {
        return Err(Refusal::BadSize.into());
    }
    let size = size_of(count);
    if out.len() < size {
        return Err(Refusal::NoRoom.into());
    }
    write_fresh(threads as u8, &mut out[..size]);
    Ok(size)
}
