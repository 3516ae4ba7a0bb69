// The soundness test by value: the decision from what one pass finds of the threads. How the pass finds it stands in the crate
// rows, and the rules on it in the crate tallies.
// It knows of no storage. proofs/OnePass.antt shows that it decides the rules of the definitions.
#![tactic(auto)]

ghost use Rattle.std.specs.Prelude.{◌≡◌};
ghost use Rattle.soundness.specs.Pass.{sound_by, aimed_at};

use definitions::{Head, NO_TARGET, Task};
use tallies::Tally;

// The thread that the target names, and thread 0 where it names none, whose task is there too.
pub fn aimed_at(head: Head) -> usize
    ensures { result ≡ aimed_at head }
{
    if head.target < head.threads {
        head.target as usize
    } else {
        0
    }
}

// The decision from a tally of all threads, the head, and the task that the target names. The holder's phase is a sum, and so a
// number.
#[tactic(auto, unfolding(crate::specs::Pass::sound_by))]
pub fn is_sound(t: Tally, head: Head, aim: Task) -> bool
    ensures { result ≡ sound_by t head aim }
{
    let threads = head.threads as usize;
    t.mutex_agrees(head.mutex)
        && t.some_elsewhere(threads)
        && match t.holder {
            11..=12 => head.target < head.threads && t.aim_fits(aim),
            _ => head.target == NO_TARGET && t.rest_fits(threads),
        }
}
