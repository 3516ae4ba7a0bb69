// The tests of the refusals 1 and 2.
ghost use Rattle.std.specs.Prelude.{◌≡◌, Some};
ghost use Rattle.definitions.specs.Table.{table_of, sized};
ghost use Rattle.soundness.specs.Pass.{passes};
ghost use Rattle.theory.specs.Tables.{Sized};
ghost use Rattle.table.specs.TableTests.{examined_of};

use codes::count_fits;
use definitions::Refusal;
use layout::{THREADS_AT, read_head, read_task, size_of};
use soundness::aimed_at;
use tallies::Tally;

// What is told of a sound table: N, and how many forbidden are 1.
#[derive(Clone, Copy)]
pub struct Examined {
    pub threads: usize,
    pub forbidden: usize,
}

// Refusal 1: "N is 0 or above 200, or the table isn't 3 + 3N bytes (an empty one included)."
#[tactic(auto, unfolding(definitions::specs::Table::sized))]
fn size_fits(table: &[u8]) -> bool
    ensures { result ≡ sized table.now }
{
    if table.is_empty() {
        return false;
    }
    let threads = table[THREADS_AT] as usize;
    count_fits(threads) && table.len() == size_of(threads)
}

// The decision on a table from what one pass found of its threads.
#[tactic(auto, unfolding(soundness::specs::Pass::passes))]
fn decided(table: &[u8], t: Tally) -> bool
    requires { Sized table.now }
    ensures { result ≡ passes (table_of table.now) (Some t) }
{
    let head = read_head(table);
    let aim = read_task(table, aimed_at(head));
    soundness::is_sound(t, head, aim)
}

#[tactic(auto, unfolding(crate::specs::TableTests::examined_of, soundness::specs::Pass::passes, theory::specs::Tables::forbidden_count, soundness::specs::Pass::found_of))]
pub fn examine(table: &[u8]) -> Result<Examined, Refusal>
    ensures { result ≡ examined_of table.now }
{
    if !size_fits(table) {
        return Err(Refusal::BadSize);
    }
    match byte_pass::found(table) {
        Some(t) if decided(table, t) => Ok(Examined {
            threads: table[THREADS_AT] as usize,
            forbidden: t.forbidden,
        }),
        _ => Err(Refusal::Unsound),
    }
}
