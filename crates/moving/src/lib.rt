// An accepted move by value, apart from any storage: what is seen of the head, the mover and the subject, and how many forbidden
// are 1 after it. A storage reads these, has the rules decide, and writes what they decided.
#![tactic(auto)]

ghost use Rattle.std.specs.Prelude.{◌+◌, ◌≤◌, ◌<◌, cond, ◌≡◌, eqb};
ghost use Rattle.definitions.specs.Bounds.{most_threads};
ghost use Rattle.moving.specs.Moved.{view_by};

use definitions::{Head, Outcome, Task};
use views::View;

// The outcome of an accepted move, and how many forbidden are 1 after it.
#[derive(Clone, Copy)]
pub struct Made {
    pub outcome: Outcome,
    pub forbidden: usize,
}

// What the rules see, where `count` forbidden are 1.
pub fn view_of(head: Head, mover: Task, number: usize, subject: Task, count: usize) -> View
    requires { (1 ≤ head.threads) × (head.threads ≤ most_threads) × (number < head.threads) }
    ensures { result ≡ view_by head mover number subject count }
{
    View {
        head,
        mover,
        number: number as u8,
        subject,
        others: views::others_of(head.threads as usize, count, subject.forbidden),
    }
}

// How many forbidden are 1 after one of them changed. Most moves change none, and are spared the sums.
pub fn recount(forbidden: usize, before: u8, after: u8) -> usize
    requires { (cond (eqb before 1) 1 0 ≤ forbidden) × (forbidden ≤ most_threads) }
    ensures { result + cond (eqb before 1) 1 0 ≡ forbidden + cond (eqb after 1) 1 0 }
{
    if before == after {
        return forbidden;
    }
    forbidden - usize::from(before == 1) + usize::from(after == 1)
}
