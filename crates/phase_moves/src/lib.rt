// Which moves a phase has, which targets they may name and when they must wait, by value and apart from any storage.
#![tactic(auto)]

ghost use Rattle.std.specs.Prelude.{◌≤◌, ◌≡◌, T};
ghost use Rattle.definitions.specs.Answers.{number_of_move};
ghost use Rattle.definitions.specs.Bounds.{last_phase};
ghost use Rattle.definitions.specs.Moves.{names_thread, target_fits, must_wait};
ghost use Rattle.definitions.specs.Phases.{has_move};
ghost use Rattle.phase_moves.specs.MoveBits.{move_bits, has_bit, targets_of};

use definitions::{Move, PHASE_COUNT};

// Which moves each phase has, as a constant table (a form that the scope paper names), one bit a move: go, call shared,
// call exclusive, set, clear, relent, hold from the lowest bit on.
pub const MOVES: [u8; PHASE_COUNT] = [
    0b0000110, 0b0000001, 0b0000001, 0b0000001, 0b1000001, 0b0000001, 0b0000001, 0b0000001,
    0b0000001, 0b0000001, 0b0001000, 0b0100001, 0b0000001, 0b0000001, 0b0000001, 0b0011000,
    0b0000001, 0b0000001, 0b0000001,
];

// The moves that a phase has, a bit each.
#[tactic(auto, unfolding(definitions::specs::Threads::list_of, definitions::specs::Phases::rows, definitions::specs::Threads::among, crate::specs::MoveBits::bits_below))]
pub fn moves_in(phase: u8) -> u8
    requires { phase ≤ last_phase }
    ensures { result ≡ move_bits phase }
{
    MOVES[phase as usize]
}

// Whether a move's bit is 1.
pub fn has_bit(moves: u8, mv: Move) -> bool
    ensures { result ≡ has_bit moves (number_of_move mv) }
{
    (moves >> mv as u8) & 1 == 1
}

// Set and clear name a thread, by the number of the move; a number above the last names none.
pub fn names_thread(mv: u8) -> bool
    ensures { result ≡ names_thread mv }
{
    (mv == Move::Set as u8) | (mv == Move::Clear as u8)
}

// How many targets, from 0 on, a move may name: set and clear every thread, another move 0 alone.
pub fn targets_of(threads: usize, mv: u8) -> usize
    ensures { result ≡ targets_of threads mv }
{
    if names_thread(mv) { threads } else { 1 }
}

// Refusal 5: "The target of set or clear isn't below N, or that of another move isn't 0."
pub fn target_fits(threads: usize, mv: u8, target: usize) -> bool
    ensures { result ≡ target_fits threads mv target }
{
    target < targets_of(threads, mv)
}

// Refusal 6: "The thread's phase has no such move."
#[tactic(auto, using(crate::proofs::Bits::move_bit))]
pub fn has_move(phase: u8, mv: Move) -> bool
    requires { phase ≤ last_phase }
    ensures { result ≡ has_move (number_of_move mv) phase }
{
    has_bit(moves_in(phase), mv)
}

// Refusal 7, of a move that the phase has: "Go in phase 9 while the mutex is 1."; "7 is also given to hold while the mutex
// is 1" (02 §1). Go is all that phase 9 has, and phase 4 alone has hold.
#[tactic(auto, unfolding(definitions::specs::Threads::every, definitions::specs::Threads::among, definitions::specs::Phases::rows))]
pub fn must_wait(phase: u8, mutex: u8, mv: Move) -> bool
    requires { phase ≤ last_phase }
    ensures { T (has_move (number_of_move mv) phase) → result ≡ must_wait phase mutex (number_of_move mv) }
{
    ((phase == 9) | (mv == Move::Hold)) & (mutex == 1)
}
