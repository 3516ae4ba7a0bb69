// The rules of the moves, by value and apart from any storage: which step (crates steps and arms) a move that passed its tests
// makes, by the move's number and the mover's phase.
#![tactic(auto)]

ghost use Rattle.definitions.specs.Codes.{go};
ghost use Rattle.views.specs.View.{Decides};

use arms::{clear_flag, look, probe, set_flag, take_back};
use definitions::{Event, Move, Outcome};
use steps::{pass, set_busy, set_mutex, show};
use views::{Decided, View};

// The phases of Table 1 of source document 000, by number:
//  0 Free; 1 to 4 the reader raises busy, looks at its forbidden, and lowers busy where it is 1; 18 it holds the mutex
//  before it tries again; 5 LOE; 6 Shared; 7, 8 it lowers busy and leaves;
//  9 EE; 10 to 12 the writer holds the mutex and sets a forbidden, looks at that thread's busy, or takes the forbidden back;
// 13 LOS; 14 Exclusive; 15 it clears every forbidden; 16, 17 it lets the mutex go and leaves.
// They stay numbers: they are the table's bytes, and the rows of the definitions go by them.
#[tactic(auto, unfolding(definitions::specs::Moves::go_effect, definitions::specs::Moves::is_retry))]
fn go(v: View) -> Decided
    ensures { Decides v go result }
{
    match v.mover.phase {
        1 => set_busy(v, 2, 1),
        2 => look(v),
        3 => set_busy(v, 4, 0),
        4 => pass(v, 1, Outcome::Retry),
        5 => show(v, 6, Event::EnterSharedReturn),
        6 => show(v, 7, Event::LeaveSharedCall),
        7 => set_busy(v, 8, 0),
        8 => show(v, 0, Event::LeaveSharedReturn),
        9 => set_mutex(v, 10, 1, Outcome::Quiet),
        11 => probe(v),
        12 => take_back(v),
        13 => show(v, 14, Event::EnterExclusiveReturn),
        14 => show(v, 15, Event::LeaveExclusiveCall),
        16 => set_mutex(v, 17, 0, Outcome::Quiet),
        17 => show(v, 0, Event::LeaveExclusiveReturn),
        18 => set_mutex(v, 1, 0, Outcome::Quiet),
        phase => pass(v, phase, Outcome::Quiet),
    }
}

// What a move writes and shows, by its number. Callers ask for a move that has passed its tests.
#[tactic(auto, unfolding(definitions::specs::Moves::effect, definitions::specs::Moves::is_retry))]
pub fn decide(v: View, mv: u8) -> Decided
    ensures { Decides v mv result }
{
    let Ok(mv) = Move::try_from(u16::from(mv)) else {
        return pass(v, 0, Outcome::Quiet);
    };
    match mv {
        Move::Go => go(v),
        Move::CallShared => show(v, 1, Event::EnterSharedCall),
        Move::CallExclusive => show(v, 9, Event::EnterExclusiveCall),
        Move::Set => set_flag(v),
        Move::Clear => clear_flag(v),
        Move::Relent => pass(v, 12, Outcome::Retry),
        Move::Hold => set_mutex(v, 18, 1, Outcome::Retry),
    }
}
