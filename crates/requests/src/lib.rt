// The tests 3 to 5 of a request's numbers, and the tests 4 to 7 of a request by a thread, by value and apart from any storage.
// What passes is answered by its move.
#![tactic(auto)]

ghost use Rattle.std.specs.Prelude.{ℕ, ◌≤◌, ◌≡◌};
ghost use Rattle.definitions.specs.Answers.{answered};
ghost use Rattle.definitions.specs.Bounds.{last_phase};
ghost use Rattle.definitions.specs.Moves.{number_tests};
ghost use Rattle.requests.specs.RequestTests.{tested_reply, tested_at, later_tests};

use definitions::{Head, Move, Refusal, Request, Task};
use phase_moves::{has_move, must_wait, target_fits};

// The tests 3 to 5 of a request to N threads, in their order; what is refused may stand at any place.
#[tactic(auto, unfolding(definitions::specs::Answers::answered))]
pub fn test_numbers(threads: usize, request: Request) -> Result<Move, Refusal>
    ensures { (place : ℕ) → tested_at place result ≡ answered (number_tests place threads request) request.mv }
{
    if threads <= request.thread as usize {
        return Err(Refusal::NoThread);
    }
    let mv = Move::try_from(request.mv)?;
    if !target_fits(threads, mv.into(), request.target as usize) {
        return Err(Refusal::BadTarget);
    }
    Ok(mv)
}

// The tests 4 to 7 of a request by a thread, in their order.
#[tactic(auto, unfolding(definitions::specs::Answers::answered))]
pub fn test_move(head: Head, mover: Task, request: Request) -> Result<Move, Refusal>
    requires { mover.phase ≤ last_phase }
    ensures { tested_reply result ≡ answered (later_tests head mover request) request.mv }
{
    let mv = Move::try_from(request.mv)?;
    if !target_fits(head.threads as usize, mv.into(), request.target as usize) {
        return Err(Refusal::BadTarget);
    }
    if !has_move(mover.phase, mv) {
        return Err(Refusal::NotInPhase);
    }
    if must_wait(mover.phase, head.mutex, mv) {
        return Err(Refusal::MutexHeld);
    }
    Ok(mv)
}
