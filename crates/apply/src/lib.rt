// An accepted request made on a sound byte table: the head, the mover and the subject are read, the rules decide, and what they
// decided is written.
#![tactic(auto)]

ghost use Rattle.std.specs.Prelude.{◌≡◌, Ok};
ghost use Rattle.definitions.specs.Table.{byte_table};
ghost use Rattle.theory.specs.Tables.{put_back};
ghost use Rattle.apply.specs.MoveMade.{MoveTried, Accepting, TwoThreads};

use definitions::{Move, Request, Task};
use layout::{read_head, read_task, write_head, write_task};
use moving::{Made, recount, view_of};
use rules::decide;
use views::{Decided, subject_of};

// The mover is written first, and the subject is read again: they may be one thread.
#[tactic(auto, using(crate::proofs::Written::put_sized, crate::proofs::Written::put_below))]
fn store(table: &mut [u8], thread: usize, number: usize, decided: Decided)
    requires { TwoThreads table.old thread number }
    ensures { table.new ≡ put_back byte_table table.old thread number decided.head decided.mover decided.forbidden }
{
    write_task(table, thread, decided.mover);
    let subject = Task {
        forbidden: decided.forbidden,
        ..read_task(table, number)
    };
    write_task(table, number, subject);
    write_head(table, decided.head);
}

pub fn apply_request(table: &mut [u8], forbidden: usize, request: Request, mv: Move) -> Made
    requires { Accepting table.old forbidden request mv }
    ensures { MoveTried table.old request table.new (Ok result) }
{
    let thread = request.thread as usize;
    let head = read_head(table);
    let mover = read_task(table, thread);
    let number = subject_of(head, mover, request, mv);
    let subject = read_task(table, number);
    let decided = decide(view_of(head, mover, number, subject, forbidden), mv.into());
    store(table, thread, number, decided);
    Made {
        outcome: decided.outcome,
        forbidden: recount(forbidden, subject.forbidden, decided.forbidden),
    }
}
