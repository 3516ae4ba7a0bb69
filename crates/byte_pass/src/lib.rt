// One pass over the threads of a byte table, read in words of four bytes: what it finds of them is what the soundness test
// decides by. Each function asks `Sized` of the bytes: with a struct that keeps this fact, each clause would speak of
// `self.entry.table.now` in place of `table.now`.
#![tactic(auto)]

ghost use Rattle.std.specs.Prelude.{◌+◌, ◌<◌, ◌≡◌, length};
ghost use Rattle.definitions.specs.Table.{table_of};
ghost use Rattle.rows.specs.Rows.{thread_word};
ghost use Rattle.soundness.specs.Pass.{found_of};
ghost use Rattle.theory.specs.Tables.{Sized};
ghost use Rattle.byte_pass.specs.Words.{word_from, odd_word};

use layout::{THREADS_AT, phase_at};
use tallies::Tally;

// Four bytes as one number, the lowest first. The compiler makes one load of it.
fn word_at(table: &[u8], at: usize) -> u64
    requires { at + 3 < length table.now }
    ensures { result ≡ word_from table.now at }
{
    u32::from_le_bytes([table[at], table[at + 1], table[at + 2], table[at + 3]]) as u64
}

// The word of a thread that is not the last: its three bytes, and the next thread's phase above them.
fn thread_word(table: &[u8], thread: usize) -> u64
    requires { Sized table.now × (thread + 1 < (table_of table.now).threads) }
    ensures { result ≡ thread_word (table_of table.now) thread ((table_of table.now).phase (thread + 1)) }
{
    word_at(table, phase_at(thread))
}

// The word of any thread, the last too: from the word that starts one byte before its own, without that byte.
fn last_word(table: &[u8], thread: usize) -> u64
    requires { Sized table.now × (thread < (table_of table.now).threads) }
    ensures { result ≡ thread_word (table_of table.now) thread 0 }
{
    word_at(table, phase_at(thread) - 1) / 256
}

// The word of the last thread but one, where the threads before the last are odd in number; else 0, the word of a free thread.
#[tactic(auto, unfolding(crate::specs::Words::odd_word))]
fn odd_word(table: &[u8], last: usize) -> u64
    requires { Sized table.now × (last < (table_of table.now).threads) }
    ensures { result ≡ odd_word (table_of table.now) last }
{
    if last % 2 == 0 {
        0
    } else {
        last_word(table, last - 1)
    }
}

// What one pass over the threads finds. Two words are at hand: first those of the last one or two threads, which no byte
// follows, then two by two those from thread 0 on. Their rows are added up, and their bits kept; four times a turn of the loop,
// which is a little faster than once. A `for` over the pairs of threads, with the words of the last ones looked up before it,
// took up to 1.2 times as long for 200 threads and for 3, and words of type u32 up to 1.12 times.
pub fn found(table: &[u8]) -> Option<Tally>
    requires { Sized table.now }
    ensures { result ≡ found_of (table_of table.now) (table_of table.now).threads }
{
    let last = table[THREADS_AT] as usize - 1;
    let mut left = last / 2;
    let mut first = last_word(table, last);
    let mut second = odd_word(table, last);
    let mut next = 0;
    let mut total = 0;
    let mut seen = 0;
    loop {
        for j in 0..4 {
            seen |= first | second;
            total += byte_rows::two_rows(first, second);
            if left == j {
                return rows::found_of(total, seen);
            }
            first = thread_word(table, next + 2 * j);
            second = thread_word(table, next + 2 * j + 1);
        }
        left -= 4;
        next += 8;
    }
}
