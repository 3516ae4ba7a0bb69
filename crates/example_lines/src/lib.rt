// What the example programs print: a line is an example's name, the refusal's number, the value, and the bytes left where
// they are shown.
#![tactic(auto)]

use std::io;

pub fn say(rt: &HostRuntime, text: &[u8]) -> io::Result<()> {
    rt.write_all(text)
}

// The refusal's number and the value of an answer.
pub fn say_answer(rt: &HostRuntime, name: &[u8], answer: u64) -> io::Result<()> {
    say(rt, name)?;
    print!(rt; ": {} {}", answer % 256, answer / 256)
}

pub fn say_bytes(rt: &HostRuntime, bytes: &[u8]) -> io::Result<()> {
    print!(rt; " |")?;
    for byte in bytes {
        print!(rt; " {byte}")?;
    }
    println!(rt;)
}

// One move, and the table after it.
pub fn show_move(
    rt: &HostRuntime,
    name: &[u8],
    table: &mut [u8],
    thread: u16,
    mv: u16,
    target: u16,
) -> io::Result<()> {
    let answer = wospinzo::wospinzo_move(table, thread, mv, target);
    say_answer(rt, name, answer)?;
    say_bytes(rt, table)
}

// A check for two threads.
pub fn show_check(rt: &HostRuntime, name: &[u8], history: &[u8]) -> io::Result<()> {
    say_answer(rt, name, wospinzo::wospinzo_check(2, history))?;
    println!(rt;)
}
