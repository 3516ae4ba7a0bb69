// Runs the script on standard input and prints its output: what the crate printout writes for what was read.
#![tactic(auto)]

ghost use Rattle.std.specs.Prelude.{◌≤◌, ◌<◌, ◌≡◌, IfOk, length};
ghost use Rattle.definitions.specs.Bounds.{most_script};
ghost use Rattle.definitions.specs.Run.{program_output};

use definitions::{ENOUGH_OUTPUT, MOST_SCRIPT};
use printout::print_input;
use std::io::{self, Read, Stdin};

// The longest script, and one byte more to see that a script is longer: no byte behind it has a say in the output.
const MOST_INPUT: usize = MOST_SCRIPT + 1;

// Reads until the buffer, which holds more than the longest script, is full or the input ends. A read may bring fewer bytes than there is room for.
fn read_input(mut stdin: Stdin, buffer: &mut [u8]) -> io::Result<usize>
    requires { most_script < length buffer.old }
    ensures { IfOk result (λ count. count ≤ length buffer.new) }
{
    let mut done = 0;
    while done < buffer.len() {
        let more = stdin.read(&mut buffer[done..])?;
        if more == 0 {
            break;
        }
        done += more;
    }
    Ok(done)
}

// Hands the program's output for an input to the kit's write: those bytes and no others.
fn hand_on(rt: &HostRuntime, input: &[u8], output: &[u8]) -> io::Result<()>
    requires { output.now ≡ program_output input.now }
    ensures { output.now ≡ program_output input.now }
{
    rt.write_all(output)
}

// Says on standard error what went wrong. Where that can't be written either, there is nowhere to say so.
fn complain(rt: &HostRuntime, line: &[u8]) {
    let _ = rt.stderr().write_all(line);
}

fn main(rt: HostRuntime) {
    let mut input = [0u8; MOST_INPUT];
    let Ok(length) = read_input(rt.stdin(), &mut input) else {
        complain(&rt, b"the script could not be read\n");
        return;
    };
    let mut output = [0u8; ENOUGH_OUTPUT];
    let count = print_input(&input[..length], &mut output);
    if hand_on(&rt, &input[..length], &output[..count]).is_err() {
        complain(&rt, b"the output could not be written\n");
    }
}
