// What stands behind T in the line of a move: how long it is, and the same put into an output.
#![tactic(auto)]

ghost use Rattle.std.specs.Prelude.{◌++◌, ◌≤◌, ◌≡◌, ℕ, length};
ghost use Rattle.definitions.specs.Forms.{act_text};
ghost use Rattle.definitions.specs.Texts.{decimal};
ghost use Rattle.text.specs.Cursors.{HasRoom, Puts};

use decimals::decimal_length;
use definitions::Move;
use text::Output;

// The moves' texts, of a set and a clear as far as the target.
const GO: &[u8] = b" (go))";

const CALL_SHARED: &[u8] = b" (call shared))";

const CALL_EXCLUSIVE: &[u8] = b" (call exclusive))";

const SET: &[u8] = b" (set ";

const CLEAR: &[u8] = b" (clear ";

const RELENT: &[u8] = b" (relent))";

const HOLD: &[u8] = b" (hold))";

// What stands behind a target.
const CLOSING: &[u8] = b"))";

// How long what stands behind T is, by the move's number, which may be any byte; a number that is no move's has nothing there.
#[tactic(auto, unfolding(definitions::specs::Texts::bytes, definitions::specs::Forms::act_text))]
pub fn act_length(mv: u8, target: u8) -> usize
    ensures size { result ≡ length (act_text mv target) }
    ensures short { result ≤ 38 }
{
    let Ok(mv) = Move::try_from(mv as u16) else {
        return 0;
    };
    match mv {
        Move::Go => GO.len(),
        Move::CallShared => CALL_SHARED.len(),
        Move::CallExclusive => CALL_EXCLUSIVE.len(),
        Move::Set => SET.len() + decimal_length(target as usize) + CLOSING.len(),
        Move::Clear => CLEAR.len() + decimal_length(target as usize) + CLOSING.len(),
        Move::Relent => RELENT.len(),
        Move::Hold => HOLD.len(),
    }
}

// A word, a number and what closes it.
#[inline(always)]
pub fn put_around(out: &mut Output, word: &[u8], number: u16, close: &[u8])
    requires { HasRoom out.old (word.now ++ (decimal number ++ close.now)) }
    ensures { Puts out.old (word.now ++ (decimal number ++ close.now)) out.new }
{
    out.put(word);
    out.put_decimal(number as usize);
    out.put(close);
}

// What stands behind T, put. Each text has a call of its own, so that a constant text is compiled to stores: with one call for
// all texts a script took a quarter longer to write.
#[inline(always)]
#[tactic(auto, unfolding(definitions::specs::Texts::bytes, definitions::specs::Forms::act_text))]
pub fn put_act(out: &mut Output, mv: u8, target: u8)
    requires { HasRoom out.old (act_text mv target) }
    ensures { Puts out.old (act_text mv target) out.new }
{
    let Ok(mv) = Move::try_from(mv as u16) else {
        return;
    };
    match mv {
        Move::Go => out.put(GO),
        Move::CallShared => out.put(CALL_SHARED),
        Move::CallExclusive => out.put(CALL_EXCLUSIVE),
        Move::Set => put_around(out, SET, target as u16, CLOSING),
        Move::Clear => put_around(out, CLEAR, target as u16, CLOSING),
        Move::Relent => out.put(RELENT),
        Move::Hold => out.put(HOLD),
    }
}
