// The last line of a run's output, by how the run ended: with so many moves made, or by the refusal of a line, whose number is
// the place. How long it is, and the same put into an output.
#![tactic(auto)]

ghost use Rattle.std.specs.Prelude.{◌≡◌, length};
ghost use Rattle.endings.specs.LastLine.{ending_line};
ghost use Rattle.text.specs.Cursors.{HasRoom, Puts};

use decimals::decimal_length;
use definitions::Refused;
use text::Output;

// The bytes of `(steps `, and of `)` with its line feed.
const AROUND_STEPS: usize = 9;

// The bytes of `(refused `, of a space, and of `)` with its line feed.
const AROUND_REFUSED: usize = 12;

// The length of the last line.
#[tactic(auto, unfolding(definitions::specs::Texts::bytes, definitions::specs::Run::steps_line, definitions::specs::Run::refused_line))]
pub fn ending_length(ending: Result<usize, Refused>) -> usize
    ensures { result ≡ length (ending_line ending) }
{
    match ending {
        Ok(steps) => AROUND_STEPS + decimal_length(steps),
        Err(Refused { refusal, place }) => {
            let number = u8::from(refusal) as usize;
            AROUND_REFUSED + decimal_length(number) + decimal_length(place)
        }
    }
}

// The last line: `(steps K)`, or `(refused R L)`.
#[tactic(auto, unfolding(definitions::specs::Texts::bytes, definitions::specs::Run::steps_line, definitions::specs::Run::refused_line))]
pub fn put_ending(out: &mut Output, ending: Result<usize, Refused>)
    requires { HasRoom out.old (ending_line ending) }
    ensures { Puts out.old (ending_line ending) out.new }
{
    match ending {
        Ok(steps) => {
            out.put(b"(steps ");
            out.put_decimal(steps);
            out.put(b")\n");
        }
        Err(Refused { refusal, place }) => {
            let number = u8::from(refusal) as usize;
            out.put(b"(refused ");
            out.put_decimal(number);
            out.put(b" ");
            out.put_decimal(place);
            out.put(b")\n");
        }
    }
}
