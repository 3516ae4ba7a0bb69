// What a move sees of a table, whatever stores it, and what it leaves, by value. Phases stand by number, as the definitions have
// them (Phases), and a task is read from any bytes.
#![tactic(auto)]

ghost use Rattle.std.specs.Prelude.{◌≤◌, ◌≡◌};
ghost use Rattle.definitions.specs.Answers.{number_of_move};
ghost use Rattle.definitions.specs.Bounds.{most_threads};
ghost use Rattle.theory.specs.Statements.{subject_by};
ghost use Rattle.views.specs.View.{others_by};

use definitions::{Head, Move, Outcome, Request, Task};
use phase_moves::names_thread;

// The thread whose busy a move may read and whose forbidden it may write, from the head, the mover and the request with its move.
#[tactic(auto, unfolding(theory::specs::Statements::subject_by))]
pub fn subject_of(head: Head, mover: Task, request: Request, mv: Move) -> usize
    requires { request.mv ≡ number_of_move mv }
    ensures { result ≡ subject_by request mover.phase head.target }
{
    if names_thread(mv.into()) {
        return request.target as usize;
    }
    match mover.phase {
        11..=12 => head.target as usize,
        _ => request.thread as usize,
    }
}

// Whether every forbidden but the subject's is 1, and whether every one but the subject's is 0.
#[derive(Clone, Copy)]
pub struct Others {
    pub set: bool,
    pub clear: bool,
}

// The same from how many forbidden are 1, and the subject's.
pub fn others_of(threads: usize, count: usize, forbidden: u8) -> Others
    requires { (1 ≤ threads) × (threads ≤ most_threads) }
    ensures { result ≡ others_by threads count forbidden }
{
    let one = forbidden as usize;
    Others {
        set: count == threads - 1 + one,
        clear: count == one,
    }
}

// What a move may read: the head, the mover, the subject with its number, and what the other flags are.
#[derive(Clone, Copy)]
pub struct View {
    pub head: Head,
    pub mover: Task,
    pub number: u8,
    pub subject: Task,
    pub others: Others,
}

// What it leaves of the head, of the mover's phase and busy, and of the subject's forbidden; and its answer.
#[derive(Clone, Copy)]
pub struct Decided {
    pub head: Head,
    pub mover: Task,
    pub forbidden: u8,
    pub outcome: Outcome,
}
