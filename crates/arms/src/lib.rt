// A reader's look at its forbidden, and what a writer does with a subject's busy and forbidden, by value. The rules (crate rules)
// choose from these and from the crate steps.
#![tactic(auto)]

ghost use Rattle.std.specs.Prelude.{cond, ◌≡◌, eqb};
ghost use Rattle.definitions.specs.Bounds.{no_target};
ghost use Rattle.definitions.specs.Codes.{set_move, clear_move};
ghost use Rattle.definitions.specs.declared.Outcome.TheVariants.{Quiet};
ghost use Rattle.arms.specs.Looks.{probed};
ghost use Rattle.steps.specs.Steps.{passed, aimed_by};
ghost use Rattle.views.specs.View.{Decides};

use definitions::{NO_TARGET, Outcome};
use steps::{aim, pass, unseen};
use views::{Decided, View};

// Phase 2: the reader has raised busy and looks at its forbidden.
pub fn look(v: View) -> Decided
    ensures { result ≡ passed v (cond (eqb v.mover.forbidden 0) 5 3) Quiet }
{
    let phase = if v.mover.forbidden == 0 { 5 } else { 3 };
    pass(v, phase, Outcome::Quiet)
}

// Phase 11: the writer has set the subject's forbidden and reads its busy; where this is 1 the move is a retry.
pub fn probe(v: View) -> Decided
    ensures { result ≡ probed v }
{
    if v.subject.busy == 1 {
        return pass(v, 12, Outcome::Retry);
    }
    let all = v.others.set & (v.subject.forbidden == 1);
    let phase = if all { 13 } else { 10 };
    aim(v, phase, NO_TARGET, v.subject.forbidden, Outcome::Quiet)
}

// Phase 12: the writer takes the subject's forbidden back.
pub fn take_back(v: View) -> Decided
    ensures { result ≡ aimed_by v 10 no_target 0 Quiet }
{
    aim(v, 10, NO_TARGET, 0, Outcome::Quiet)
}

// Set: in 10 to 11, with the subject as target; in 15 the phase and the target stay.
pub fn set_flag(v: View) -> Decided
    ensures { Decides v set_move result }
{
    let outcome = unseen((v.mover.phase == 15) | (v.subject.forbidden == 1));
    if v.mover.phase == 10 {
        return aim(v, 11, v.number, 1, outcome);
    }
    aim(v, v.mover.phase, v.head.target, 1, outcome)
}

// Clear: to 16 when every other forbidden is 0; else the phase stays.
pub fn clear_flag(v: View) -> Decided
    ensures { Decides v clear_move result }
{
    let outcome = unseen(v.subject.forbidden == 0);
    let phase = if v.others.clear { 16 } else { v.mover.phase };
    aim(v, phase, v.head.target, 0, outcome)
}
