// The count of threads as code: whether N is one. The numbers of the moves, events and refusals are those of the enums
// (definitions).
#![tactic(auto)]

ghost use Rattle.std.specs.Prelude.{◌≡◌};
ghost use Rattle.definitions.specs.Table.{count_fits};

use definitions::MOST_THREADS;

// Whether N is from 1 to 200.
pub fn count_fits(threads: usize) -> bool
    ensures { result ≡ count_fits threads }
{
    (1 <= threads) & (threads <= MOST_THREADS as usize)
}
