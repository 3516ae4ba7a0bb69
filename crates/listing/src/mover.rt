// Where the thread that would move stands, and which of its moves are open.
ghost use Rattle.std.specs.Prelude.{◌≤◌, ◌≡◌};
ghost use Rattle.definitions.specs.Bounds.{most_threads, last_phase};
ghost use Rattle.phase_moves.specs.MoveBits.{move_bits};

use definitions::Move;

// What is known of the thread: N, its phase, the moves that the phase has, a bit each, and the mutex.
#[derive(Clone, Copy)]
pub struct Mover {
    pub threads: usize,
    pub phase: u8,
    pub moves: u8,
    pub mutex: u8,
    ghost few: { threads ≤ most_threads },
    ghost known: { phase ≤ last_phase },
    ghost bits: { moves ≡ move_bits phase },
}

impl Mover {
    ghost use Rattle.definitions.specs.Answers.{number_of_move};
    ghost use Rattle.listing.specs.Pairs.{is_open, open_targets};

    // Whether a move is open.
    #[tactic(auto, using(phase_moves::proofs::Bits::move_bit))]
    pub fn is_open(self, mv: Move) -> bool
        ensures { result ≡ is_open self (number_of_move mv) }
    {
        phase_moves::has_bit(self.moves, mv) && !phase_moves::must_wait(self.phase, self.mutex, mv)
    }

    // With how many targets, from 0 on.
    #[tactic(auto, unfolding(crate::specs::Pairs::open_targets))]
    pub fn open_targets(self, mv: Move) -> usize
        ensures { result ≡ open_targets self (number_of_move mv) }
    {
        if self.is_open(mv) {
            phase_moves::targets_of(self.threads, mv.into())
        } else {
            0
        }
    }
}
