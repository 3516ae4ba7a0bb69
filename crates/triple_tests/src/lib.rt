// The tests of a list of moves, byte triples of thread, move and target.
#![tactic(auto)]

ghost use Rattle.std.specs.Prelude.{◌/◌, ◌≡◌, length};
ghost use Rattle.definitions.specs.Answers.{answer_reply, answered};
ghost use Rattle.definitions.specs.Chains.{requests_of};
ghost use Rattle.definitions.specs.Moves.{ask};
ghost use Rattle.definitions.specs.Scripts.{triples_tests};

use definitions::{Refused, Request};
use requests::test_numbers;

// The request of a triple.
fn request_of(thread: u8, mv: u8, target: u8) -> Request
    ensures { result ≡ ask thread mv target }
{
    Request {
        thread: thread as u16,
        mv: mv as u16,
        target: target as u16,
    }
}

// The tests 3, 4 and 5 triple by triple, each tried for all three before the next. Passed, they answer the number of triples.
// The triples are read by index: a `for` over their chunks with an index beside took twice the time.
pub fn test_triples(threads: u16, triples: &[u8]) -> Result<usize, Refused>
    ensures { answer_reply result ≡ answered (triples_tests 0 threads (requests_of triples.now)) (length triples.now / 3) }
{
    let moves = triples.len() / 3;
    for k in 0..moves {
        let at = 3 * k;
        let request = request_of(triples[at], triples[at + 1], triples[at + 2]);
        test_numbers(threads as usize, request).map_err(|refusal| refusal.at(k))?;
    }
    Ok(moves)
}
