// The tests 3 to 7 of a request to a sound table, in their order.
ghost use Rattle.std.specs.Prelude.{◌≡◌};
ghost use Rattle.definitions.specs.Answers.{answered};
ghost use Rattle.definitions.specs.Moves.{request_tests};
ghost use Rattle.definitions.specs.Table.{table_of};
ghost use Rattle.requests.specs.RequestTests.{tested_reply};
ghost use Rattle.theory.specs.Tables.{SoundBytes};

use definitions::{Move, Refusal, Request};
use layout::{read_head, read_task};
use requests::test_move;

#[tactic(auto, using(theory::proofs::Bytes::sized_e), unfolding(definitions::specs::Answers::answered))]
pub fn test_request(table: &[u8], request: Request) -> Result<Move, Refusal>
    requires { SoundBytes table.now }
    ensures { tested_reply result ≡ answered (request_tests (table_of table.now) request) request.mv }
{
    let head = read_head(table);
    let thread = request.thread as usize;
    if head.threads as usize <= thread {
        return Err(Refusal::NoThread);
    }
    let mover = read_task(table, thread);
    test_move(head, mover, request)
}
