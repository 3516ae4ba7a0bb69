// How many moves the plan for a history makes, from the share of each event, without the plan.
#![tactic(auto)]

ghost use Rattle.std.specs.Prelude.{◌≡◌, T, length};
ghost use Rattle.definitions.specs.Answers.{is_accepted, answer_reply};
ghost use Rattle.definitions.specs.PlainLock.{pairs_of, check_reply};
ghost use Rattle.definitions.specs.Plan.{plan, plan_length_reply};
ghost use Rattle.shares.specs.Shares.{share_of};

use definitions::Refused;

// In a share, a move that is made once is 1, and one that is made again for each thread this.
const EACH: u64 = 4_294_967_296;

// How many moves an event takes, in one number. Codes stand by number, since a byte of a history may be any code. The shares are
// constants, and are compiled to a table, and not to branches, which are often mispredicted.
#[tactic(auto, unfolding(crate::specs::Shares::share_of))]
fn share_of(code: usize) -> u64
    ensures { result ≡ share_of code }
{
    match code {
        0 => 0,
        1 => 1,
        2 => 3,
        3 => 2,
        4 => 1,
        5 => 1,
        6 => 0x2_0000_0002,
        7 => 0x1_0000_0002,
        8 => 1,
        _ => 0,
    }
}

// How many moves the plan for a history makes that the check accepts. A pass over the events' codes adds up their shares; the
// product with N comes after it: in the loop it would be compiled to branches.
pub fn count_moves(threads: u16, history: &[u8]) -> usize
    requires { T (is_accepted (check_reply threads history.now)) }
    ensures { result ≡ length (plan threads (pairs_of history.now)) }
{
    let mut shares: u64 = 0;
    for pair in history.chunks_exact(2) {
        shares += share_of(pair[1] as usize);
    }
    let once = (shares % EACH) as usize;
    let each = (shares / EACH) as usize;
    once + each * threads as usize
}

// How many moves the plan for a history makes, without the plan. Refusals and places are the check's.
#[tactic(auto, using(crate::proofs::LengthLaws::length_refused))]
pub fn plan_length(threads: u16, history: &[u8]) -> Result<usize, Refused>
    ensures { answer_reply result ≡ plan_length_reply threads history.now }
{
    history::check(threads, history)?;
    Ok(count_moves(threads, history))
}
