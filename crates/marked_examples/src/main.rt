// M1 to M12 of the scope paper through the compiled entries. The gate holds what this prints to the file stdout.
#![tactic(auto)]

use example_lines::{say_answer, say_bytes, show_check, show_move};
use std::io;

// M1: a fresh table for one thread.
fn fresh_table(rt: &HostRuntime) -> io::Result<()> {
    let mut table = [0u8; 6];
    let answer = wospinzo::wospinzo_fresh(1, &mut table);
    say_answer(rt, b"M1", answer)?;
    say_bytes(rt, &table)
}

// M3 to M7: thread 1 sets every flag and enters exclusive.
fn writer_enters(rt: &HostRuntime, table: &mut [u8]) -> io::Result<()> {
    show_move(rt, b"M3", table, 1, 0, 0)?;
    show_move(rt, b"M4", table, 1, 3, 0)?;
    show_move(rt, b"M5", table, 1, 0, 0)?;
    show_move(rt, b"M6 set", table, 1, 3, 1)?;
    show_move(rt, b"M6 go", table, 1, 0, 0)?;
    show_move(rt, b"M7", table, 1, 0, 0)
}

// M8: thread 0 calls shared and is turned away.
fn reader_waits(rt: &HostRuntime, table: &mut [u8]) -> io::Result<()> {
    show_move(rt, b"M8 call", table, 0, 1, 0)?;
    show_move(rt, b"M8 go", table, 0, 0, 0)?;
    show_move(rt, b"M8 go", table, 0, 0, 0)
}

// M2 to M8: two threads, each example on the table that the one before left.
fn moves(rt: &HostRuntime) -> io::Result<()> {
    let mut table = [0u8; 9];
    let answer = wospinzo::wospinzo_fresh(2, &mut table);
    say_answer(rt, b"fresh for 2", answer)?;
    say_bytes(rt, &table)?;
    show_move(rt, b"M2", &mut table, 1, 2, 0)?;
    writer_enters(rt, &mut table)?;
    reader_waits(rt, &mut table)
}

// M9 to M12.
fn histories(rt: &HostRuntime) -> io::Result<()> {
    show_check(rt, b"M9", &[0, 1, 0, 2, 1, 5, 1, 6])?;
    show_check(rt, b"M10", &[0, 1, 0, 2, 1, 5, 0, 3, 1, 6])?;
    show_check(rt, b"M11", &[0, 2])?;
    show_check(rt, b"M11, empty", &[])?;
    let mut out = [0u8; 16];
    let answer = wospinzo::wospinzo_plan(1, &[0, 5, 0, 6], &mut out);
    say_answer(rt, b"M12", answer)?;
    say_bytes(rt, &out)
}

fn main(rt: HostRuntime) -> io::Result<()> {
    fresh_table(&rt)?;
    moves(&rt)?;
    histories(&rt)
}
