// What the program prints for an input: the run's output, or the line for a script too long.
#![tactic(auto)]

ghost use Rattle.std.specs.Prelude.{◌≤◌, [], length};
ghost use Rattle.definitions.specs.Answers.{answer_reply, counted};
ghost use Rattle.definitions.specs.Bounds.{enough_output};
ghost use Rattle.definitions.specs.Run.{program_output};
ghost use Rattle.basics.specs.Outputs.{Delivered};
ghost use Rattle.printout.specs.Buffer.{Printed};

use definitions::{MOST_SCRIPT, Refused};
use text::deliver;

// The program's output, if it has room.
#[tactic(auto, using(crate::proofs::Output::its_reply, crate::proofs::Output::its_output), unfolding(definitions::specs::Texts::bytes))]
fn write_output(input: &[u8], out: &mut [u8]) -> Result<usize, Refused>
    ensures { Delivered (counted [] (program_output input.now)) out.old out.new (answer_reply result) }
{
    if MOST_SCRIPT < input.len() {
        return deliver(b"(refused 8 0)\n", out);
    }
    let ran = script::run(input, out)?;
    Ok(ran.bytes)
}

// The program's output, written to the front of a buffer that always suffices. Its length is answered.
pub fn print_input(input: &[u8], out: &mut [u8]) -> usize
    requires { enough_output ≤ length out.old }
    ensures { Printed input.now out.old out.new result }
{
    write_output(input, out).unwrap_or(0)
}
