// The lines of a script, one after the other.
#![tactic(auto)]

ghost use Rattle.std.specs.Prelude.{◌≡◌, eqb, position};
ghost use Rattle.std.specs.Iterator.{YieldsFirstBy, item_count};
ghost use Rattle.definitions.specs.Texts.{line_feed, lines_of};
ghost use Rattle.lines.specs.Lines.{line_read, lines_left};

// "each ended by a line feed (10)"
const LINE_FEED: u8 = 10;

// The place of the second line, the first that may state a move.
pub const SECOND: usize = 2;

// A line without its line feed, and whether it has one.
#[derive(Clone, Copy)]
pub struct Line<'a> {
    pub text: &'a [u8],
    pub ended: bool,
}

// The lines of a script from a place on.
#[derive(Clone, Copy)]
pub struct Lines<'a> {
    script: &'a [u8],
    from: usize,
}

impl<'a> Lines<'a> {
    pub fn new(script: &'a [u8]) -> Lines<'a>
        ensures { lines_left result ≡ lines_of script.now }
    {
        Lines { script, from: 0 }
    }
}

// The place of the first line feed among a few bytes, if there is one.
fn feed_among(few: &[u8]) -> Option<usize>
    ensures { result ≡ position (λ c. eqb c line_feed) few.now }
{
    few.iter().position(|c| *c == LINE_FEED)
}

// The place of the first line feed, if there is one. It is looked for in four bytes at a time.
fn first_feed(text: &[u8]) -> Option<usize>
    ensures { result ≡ position (λ c. eqb c line_feed) text.now }
{
    let mut at = 0;
    while 4 <= text.len() - at {
        if let Some(place) = feed_among(&text[at..at + 4]) {
            return Some(at + place);
        }
        at += 4;
    }
    while at < text.len() {
        if text[at] == LINE_FEED {
            return Some(at);
        }
        at += 1;
    }
    None
}

impl<'a> Iterator for Lines<'a> {
    type Item = Line<'a>;

    ghost next_gives = { YieldsFirstBy line_read lines_left };

    ghost remaining = { item_count lines_left };

    // The line from the present place to its line feed, or to the script's end.
    fn next(&mut self) -> Option<Line<'a>> {
        let script = self.script;
        let from = self.from;
        if script.len() <= from {
            return None;
        }
        match first_feed(&script[from..]) {
            Some(size) => {
                self.from = from + size + 1;
                Some(Line {
                    text: &script[from..from + size],
                    ended: true,
                })
            }
            None => {
                self.from = script.len();
                Some(Line {
                    text: &script[from..],
                    ended: false,
                })
            }
        }
    }
}
