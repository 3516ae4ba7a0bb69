// The rows of threads as the pass over the byte table looks them up: two at a time, by their words. The rows themselves are
// generated (tests/rows/states.py), and each is held to `row_at`. The hints put their table into the pass without a call: with
// calls the pass takes 1.7 times as long for 200 threads.
#![tactic(auto)]

mod states;

ghost use Rattle.std.specs.Prelude.{◌+◌, ◌^◌, ◌<◌, ◌≡◌};
ghost use Rattle.rows.specs.Rows.{row_at, state_in};

use states::row_of;

// The row of the state in a word. The product brings forbidden, busy and phase next to each other, at bit 25.
#[inline(always)]
fn row_in(word: u64) -> u64
    requires { word < 2 ^ 32 }
    ensures { result ≡ row_at (state_in word) }
{
    row_of(word * 0x804_0200 / 0x200_0000 % 128)
}

// What two threads add.
pub fn two_rows(first: u64, second: u64) -> u64
    requires { (first < 2 ^ 32) × (second < 2 ^ 32) }
    ensures { result ≡ row_at (state_in first) + row_at (state_in second) }
{
    row_in(first) + row_in(second)
}
