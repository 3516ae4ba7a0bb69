// Triples put into an output.
#![tactic(auto)]

ghost use Rattle.std.specs.Prelude.{◌%◌, [], ◌∷◌, ◌≡◌, length};
ghost use Rattle.definitions.specs.Moves.{ask};
ghost use Rattle.definitions.specs.Plan.{bytes_of};
ghost use Rattle.text.specs.Cursors.{HasRoom, Puts};

use text::Output;

// One triple.
#[tactic(auto, unfolding(definitions::specs::Plan::bytes_of))]
pub fn put_triple(out: &mut Output, thread: u8, mv: u8, target: u8)
    requires { HasRoom out.old (bytes_of (ask thread mv target ∷ [])) }
    ensures { Puts out.old (bytes_of (ask thread mv target ∷ [])) out.new }
{
    out.put_byte(thread);
    out.put_byte(mv);
    out.put_byte(target);
}

// Triples, three bytes a turn: byte by byte they would be put by a call of memcpy.
pub fn put_triples(out: &mut Output, moves: &[u8])
    requires room { HasRoom out.old moves.now }
    requires whole { length moves.now % 3 ≡ 0 }
    ensures { Puts out.old moves.now out.new }
{
    for triple in moves.chunks_exact(3) {
        put_triple(out, triple[0], triple[1], triple[2]);
    }
}
