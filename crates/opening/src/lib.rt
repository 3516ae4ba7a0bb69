// The first line of a script, for the run and for reading alike.
#![tactic(auto)]

ghost use Rattle.std.specs.Prelude.{MatchOption};
ghost use Rattle.lines.specs.Lines.{lines_left};
ghost use Rattle.opening.specs.FirstLine.{ThreadsFirst, NoThreads};

use act_forms::Form;
use forms::read_line;
use lines::Lines;

// A first line that says the number of threads, and the lines behind it.
#[derive(Clone, Copy)]
pub struct First<'a> {
    pub count: u16,
    pub rest: Lines<'a>,
}

// There is none where the first line says anything else, or there is no line.
pub fn first_line(script: &[u8]) -> Option<First<'_>>
    ensures { MatchOption result (NoThreads script.now) (λ f. ThreadsFirst script.now f.count (lines_left f.rest)) }
{
    let mut lines = Lines::new(script);
    let Form::Threads(count) = read_line(lines.next()?)? else {
        return None;
    };
    Some(First { count, rest: lines })
}
