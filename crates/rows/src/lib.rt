// What a thread tells the soundness test, as one row of constants: the pass over a table looks a row up for each thread and
// adds it to one total. It knows of no storage and of no order of threads: a word is a thread's three bytes, phase, busy and
// forbidden from the lowest byte on, with any byte above them.
// Why it is right: a thread whose bytes have few bits, phase below 32 and flags below 2, has one of 128 states, and the row of
// each says what the thread adds to each count, or that no sound table has it. Whether all bytes have few bits is told by all
// bits that were seen. proofs/Packed shows that the total and these bits tell what one pass finds (`found_of`), proofs/Collected
// that a pass in any order has them.
#![tactic(auto)]

ghost use Rattle.std.specs.Prelude.{◌≡◌};
ghost use Rattle.rows.specs.Rows.{found_by};

use tallies::Tally;

// The fields of a row and of a total, in hexadecimal digits from the lowest: three for the sum of the holders' phases, two
// for how many forbidden are 1, two for how many of their threads are in 5 to 7, two for how many threads are in 3, 4 and 18,
// and the rest for how many threads no sound table has.
const FLAGS: u64 = 0x0_00_00_01_000;

const READERS: u64 = 0x0_00_01_00_000;

const BACKED: u64 = 0x0_01_00_00_000;

const BAD: u64 = 0x1_00_00_00_000;

// In a word, the bits of a phase of 32 or more and of a flag of 2 or more.
const HIGH: u64 = 0x00_fe_fe_e0;

// What the total of all threads' rows and all bits of their words tell.
#[tactic(auto, unfolding(crate::specs::Rows::found_by))]
pub fn found_of(total: u64, seen: u64) -> Option<Tally>
    ensures { result ≡ found_by total seen }
{
    if seen & HIGH != 0 || BAD <= total {
        return None;
    }
    Some(Tally {
        holder: (total % FLAGS) as usize,
        forbidden: (total / FLAGS % 256) as usize,
        readers: (total / READERS % 256) as usize,
        backed_off: (total / BACKED % 256) as usize,
    })
}
