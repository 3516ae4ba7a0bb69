// The lines of a script as they are written, each with its line feed: how long they are, and the same put into an output.
#![tactic(auto)]

ghost use Rattle.std.specs.Prelude.{◌≤◌, ◌≡◌, length};
ghost use Rattle.definitions.specs.Forms.{threads_line, spelled};
ghost use Rattle.definitions.specs.Moves.{ask};
ghost use Rattle.definitions.specs.Scripts.{ended};
ghost use Rattle.text.specs.Cursors.{HasRoom, Puts};

use acts::{act_length, put_act, put_around};
use decimals::decimal_length;
use text::Output;

// The bytes of `(threads `, and of `)` with its line feed.
const AROUND_THREADS: usize = 11;

// The bytes of a move's bracket and of its line feed.
const AROUND_MOVE: usize = 2;

// How long `(threads N)` is.
pub fn threads_length(threads: u16) -> usize
    ensures size { result ≡ length (ended (threads_line threads)) }
    ensures short { result ≤ 31 }
{
    AROUND_THREADS + decimal_length(threads as usize)
}

// The line `(threads N)`.
#[inline(always)]
#[tactic(auto, unfolding(definitions::specs::Texts::bytes))]
pub fn put_threads(out: &mut Output, threads: u16)
    requires { HasRoom out.old (ended (threads_line threads)) }
    ensures { Puts out.old (ended (threads_line threads)) out.new }
{
    put_around(out, b"(threads ", threads, b")\n");
}

// How long a move's line is, `(T (go))` and so on.
pub fn move_length(thread: u8, mv: u8, target: u8) -> usize
    ensures size { result ≡ length (ended (spelled (ask thread mv target))) }
    ensures short { result ≤ 60 }
{
    AROUND_MOVE + decimal_length(thread as usize) + act_length(mv, target)
}

// A move's line.
#[inline(always)]
#[tactic(auto, unfolding(definitions::specs::Texts::bytes))]
pub fn put_move(out: &mut Output, thread: u8, mv: u8, target: u8)
    requires { HasRoom out.old (ended (spelled (ask thread mv target))) }
    ensures { Puts out.old (ended (spelled (ask thread mv target))) out.new }
{
    out.put(b"(");
    out.put_decimal(thread as usize);
    put_act(out, mv, target);
    out.put(b"\n");
}
