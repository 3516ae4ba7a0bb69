// The examples of the scope paper that are not marked, through the compiled entries; those on the depth of a note also for
// the entry that reads a script (02 §5); and tables that nothing could have left behind (02 §6). The gate holds what this
// prints to the file stdout.
#![tactic(auto)]

ghost use Rattle.std.specs.Prelude.{◌≤◌};

use example_lines::{say_answer, say_bytes, show_check, show_move};
use std::io;

// The longest history that is checked, and a pair more.
const LONG: usize = 60_002;

// Tables that are turned down.
fn tables(rt: &HostRuntime) -> io::Result<()> {
    let mut held = [2, 1, 255, 0, 0, 0, 0, 0, 0];
    show_move(rt, b"2 1 255 and six zeros", &mut held, 0, 1, 0)?;
    let mut short = [1, 0, 255, 0, 0];
    show_move(rt, b"five bytes", &mut short, 0, 1, 0)?;
    let mut most = [0u8; 606];
    let answer = wospinzo::wospinzo_fresh(200, &mut most);
    say_answer(rt, b"N of 200", answer)?;
    println!(rt;)?;
    let answer = wospinzo::wospinzo_fresh(201, &mut most);
    say_answer(rt, b"N of 201", answer)?;
    println!(rt;)
}

// Tables that no moves leave, with every thread in 3, 4 and 18, and one that they leave, with a thread elsewhere.
fn kept_tables(rt: &HostRuntime) -> io::Result<()> {
    let mut backed_off = [2, 0, 255, 3, 1, 0, 4, 0, 0];
    show_move(rt, b"both in 3 and 4", &mut backed_off, 0, 0, 0)?;
    let mut at_mutex = [2, 1, 255, 18, 0, 0, 4, 0, 0];
    show_move(rt, b"both in 18 and 4", &mut at_mutex, 0, 0, 0)?;
    let mut elsewhere = [2, 0, 255, 3, 1, 0, 9, 0, 0];
    show_move(rt, b"one in 3, one in 9", &mut elsewhere, 0, 0, 0)
}

fn show_run(rt: &HostRuntime, name: &[u8], script: &[u8]) -> io::Result<()> {
    let mut out = [0u8; 16];
    let answer = wospinzo::wospinzo_run(script, &mut out);
    say_answer(rt, name, answer)?;
    say_bytes(rt, &out)
}

fn show_read(rt: &HostRuntime, name: &[u8], script: &[u8]) -> io::Result<()> {
    let mut out = [7u8; 3];
    let answer = wospinzo::wospinzo_read_script(script, &mut out);
    say_answer(rt, name, answer)?;
    say_bytes(rt, &out)
}

// Scripts: the most threads and one more, the deepest note and one deeper.
fn scripts(rt: &HostRuntime) -> io::Result<()> {
    show_run(rt, b"threads 200", b"(threads 200)\n")?;
    show_run(rt, b"threads 201", b"(threads 201)\n")?;
    let deepest = b"(threads 1)\n(note (((((((((((((((()))))))))))))))))\n";
    show_run(rt, b"depth 16", deepest)?;
    show_read(rt, b"depth 16, read", deepest)?;
    let deeper = b"(threads 1)\n(note ((((((((((((((((())))))))))))))))))\n";
    show_run(rt, b"depth 17", deeper)?;
    show_read(rt, b"depth 17, read", deeper)
}

// Rounds of thread 0, 1 to 4 again and again: permitted as far as they go.
fn fill_rounds(history: &mut [u8]) {
    for (k, pair) in history.chunks_exact_mut(2).enumerate() {
        pair[1] = (k % 4) as u8 + 1;
    }
}

fn long_history(rt: &HostRuntime, name: &[u8], length: usize) -> io::Result<()>
    requires { length ≤ 60_002 }
{
    let mut history = [0u8; LONG];
    fill_rounds(&mut history);
    show_check(rt, name, &history[..length])
}

fn main(rt: HostRuntime) -> io::Result<()> {
    tables(&rt)?;
    kept_tables(&rt)?;
    scripts(&rt)?;
    long_history(&rt, b"60,000 bytes", 60_000)?;
    long_history(&rt, b"60,002 bytes", 60_002)
}
