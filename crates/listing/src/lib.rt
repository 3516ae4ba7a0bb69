// The open moves of a thread, listed as byte pairs: counted first, then written.
#![tactic(auto)]

mod mover;

ghost use Rattle.std.specs.Prelude.{◌≤◌, [], ◌≡◌, length};
ghost use Rattle.definitions.specs.Answers.{answer_reply, counted, number_of_move};
ghost use Rattle.definitions.specs.Bounds.{most_threads};
ghost use Rattle.definitions.specs.OpenMoves.{open_entry};
ghost use Rattle.basics.specs.Outputs.{Delivered};
ghost use Rattle.listing.specs.Pairs.{pairs, open_pairs};
ghost use Rattle.text.specs.Cursors.{HasRoom, Puts};

use definitions::{Move, Refusal, Refused};
use layout::{read_head, read_task};
use mover::Mover;
use text::Output;

// How many bytes the pairs of all moves have.
#[tactic(auto, using(crate::proofs::PairLists::targets_most), unfolding(crate::specs::Pairs::pairs_below))]
fn count_open(mover: Mover) -> usize
    ensures { result ≡ length (open_pairs mover) }
{
    let mut bytes = 0;
    for mv in Move::ALL {
        bytes += 2 * mover.open_targets(mv);
    }
    bytes
}

// The pairs of one move.
#[tactic(auto, unfolding(crate::specs::Pairs::pairs))]
fn put_pairs(out: &mut Output, mv: Move, targets: usize)
    requires { HasRoom out.old (pairs (number_of_move mv) targets) × (targets ≤ most_threads) }
    ensures { Puts out.old (pairs (number_of_move mv) targets) out.new }
{
    for target in 0..targets {
        out.put(&[mv.into(), target as u8]);
    }
}

// The pairs of all moves.
#[tactic(auto, unfolding(crate::specs::Pairs::pairs_below))]
fn put_open(out: &mut Output, mover: Mover)
    requires { HasRoom out.old (open_pairs mover) }
    ensures { Puts out.old (open_pairs mover) out.new }
{
    for mv in Move::ALL {
        put_pairs(out, mv, mover.open_targets(mv));
    }
}

// Where they have room. The number of bytes is answered.
fn list_open(out: &mut [u8], mover: Mover) -> Result<usize, Refused>
    ensures { Delivered (counted [] (open_pairs mover)) out.old out.new (answer_reply result) }
{
    let bytes = count_open(mover);
    if out.len() < bytes {
        return Err(Refusal::NoRoom.into());
    }
    put_open(&mut Output::new(out), mover);
    Ok(bytes)
}

// The open moves of a thread of a table. The number of bytes is answered.
pub fn open_moves(table: &[u8], thread: u16, out: &mut [u8]) -> Result<usize, Refused>
    ensures { Delivered (open_entry table.now thread) out.old out.new (answer_reply result) }
{
    let threads = table::examine(table)?.threads;
    let thread = usize::from(thread);
    if threads <= thread {
        return Err(Refusal::NoThread.into());
    }
    let phase = read_task(table, thread).phase;
    let mover = Mover {
        threads,
        phase,
        moves: phase_moves::moves_in(phase),
        mutex: read_head(table).mutex,
    };
    list_open(out, mover)
}
