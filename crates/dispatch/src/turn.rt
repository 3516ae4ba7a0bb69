// One turn of the dispatcher.
ghost use Rattle.dispatch.specs.Turned.{TurnTable, Turned, TurnTaken};

use choice::{Chosen, choose};
use definitions::{Dispatched, Refusal, Request};
use lock::try_move;
use table::{Examined, examine};

// What a turn answers, and how many threads have forbidden 1 after it.
#[derive(Clone, Copy)]
struct Turn {
    answer: Dispatched,
    forbidden: usize,
}

// A turn on a table that was tested, from what was told of it.
fn take_turn(table: &mut [u8], examined: Examined) -> Result<Turn, Refusal>
    requires { TurnTable table.old examined }
    ensures { TurnTaken table.old table.new result }
{
    let Some(Chosen { thread, mv, target }) = choose(table, examined.threads) else {
        return Ok(Turn {
            answer: Dispatched::Waiting,
            forbidden: examined.forbidden,
        });
    };
    let request = Request {
        thread: thread as u16,
        mv: u16::from(mv),
        target: target as u16,
    };
    let made = try_move(table, examined.forbidden, request)?;
    Ok(Turn {
        answer: Dispatched::Moved {
            thread,
            mv,
            target,
            event: made.outcome.event(),
        },
        forbidden: made.forbidden,
    })
}

// A turn on any table.
fn make_turn(table: &mut [u8]) -> Result<Turn, Refusal>
    ensures { TurnTaken table.old table.new result }
{
    let examined = examine(table)?;
    take_turn(table, examined)
}

pub fn dispatch(table: &mut [u8]) -> Dispatched
    ensures { Turned table.old table.new result }
{
    match make_turn(table) {
        Ok(turn) => turn.answer,
        Err(refusal) => Dispatched::Refused(refusal),
    }
}
