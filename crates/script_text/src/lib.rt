// The script of a list of moves, byte triples: how long it is, and the same put into an output.
#![tactic(auto)]

ghost use Rattle.std.specs.Prelude.{◌/◌, ◌≤◌, ◌≡◌, length};
ghost use Rattle.definitions.specs.Chains.{requests_of};
ghost use Rattle.definitions.specs.Scripts.{moves_text, script_of};
ghost use Rattle.basics.specs.ShortestLines.{most_script_moves};
ghost use Rattle.text.specs.Cursors.{HasRoom, Puts};

use spelling::{move_length, put_move, put_threads, threads_length};
use text::Output;

// How many bytes the script has.
pub fn script_length(threads: u16, triples: &[u8]) -> usize
    requires { length triples.now / 3 ≤ most_script_moves }
    ensures { result ≡ length (script_of threads (requests_of triples.now)) }
{
    let mut total = threads_length(threads);
    for triple in triples.chunks_exact(3) {
        total += move_length(triple[0], triple[1], triple[2]);
    }
    total
}

// The lines of the moves.
#[inline(always)]
fn put_moves(out: &mut Output, triples: &[u8])
    requires { HasRoom out.old (moves_text (requests_of triples.now)) }
    ensures { Puts out.old (moves_text (requests_of triples.now)) out.new }
{
    for triple in triples.chunks_exact(3) {
        put_move(out, triple[0], triple[1], triple[2]);
    }
}

// The script: the threads line, then the lines of the moves. It is a part of its caller, as are the functions that it calls: there
// the output's position is kept in a register, and in a function of their own it was loaded and stored for each text.
#[inline(always)]
#[tactic(auto, unfolding(definitions::specs::Scripts::script_of))]
pub fn put_script(out: &mut Output, threads: u16, triples: &[u8])
    requires { HasRoom out.old (script_of threads (requests_of triples.now)) }
    ensures { Puts out.old (script_of threads (requests_of triples.now)) out.new }
{
    put_threads(out, threads);
    put_moves(out, triples);
}
