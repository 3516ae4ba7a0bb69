// Which threads have a move of the dispatcher's, and which move that is, by value and apart from any storage. Phases stand by
// number, as the definitions have them (Phases), and a task is read from any bytes.
#![tactic(auto)]

ghost use Rattle.std.specs.Prelude.{◌≡◌};
ghost use Rattle.definitions.specs.Answers.{number_of_move};
ghost use Rattle.dispatching.specs.Ready.{ready_by, move_by};

use definitions::Move;

// Whether a thread in a phase is ready, from the mutex and the busy of the table's target. In 0 its moves are calls, in 4 retries,
// in 6 and 14 leavings, which are the host's; in 9 the mutex must be free, and in 11 the target not busy.
#[tactic(auto, unfolding(dispatching::specs::Ready::ready_by))]
pub fn is_ready(mutex: u8, busy: u8, phase: u8) -> bool
    ensures { result ≡ ready_by mutex busy phase }
{
    match phase {
        0 | 4 | 6 | 14 => false,
        9 => mutex == 0,
        11 => busy == 0,
        _ => true,
    }
}

// The move of a ready thread.
#[tactic(auto, unfolding(dispatching::specs::Ready::move_by))]
pub fn move_in(phase: u8) -> Move
    ensures { number_of_move result ≡ move_by phase }
{
    match phase {
        10 => Move::Set,
        15 => Move::Clear,
        _ => Move::Go,
    }
}
