// The test of a note: what follows its word and the space, up to the note's own closing bracket. The text is passed in one loop with a depth count.
#![tactic(auto)]

ghost use Rattle.std.specs.Prelude.{◌+◌, ◌≤◌, true, cond, ◌||◌, ◌≡◌, eqb};
ghost use Rattle.definitions.specs.Bounds.{most_depth};
ghost use Rattle.definitions.specs.Forms.{note, bad, note_fits, note_form};
ghost use Rattle.definitions.specs.Threads.{between};
ghost use Rattle.notes.specs.Brackets.{depth_behind};

use definitions::MOST_DEPTH;

// A byte that a note may have.
fn is_printable(c: u8) -> bool
    ensures { result ≡ between 32 126 c }
{
    matches!(c, 32..=126)
}

// The depth behind a byte at a depth, unless the byte is a bracket that may not stand there.
fn depth_behind(depth: u8, c: u8) -> Option<u8>
    ensures { result ≡ depth_behind depth c }
{
    match c {
        b'(' if depth < MOST_DEPTH => Some(depth + 1),
        b'(' => None,
        b')' => depth.checked_sub(1),
        _ => Some(depth),
    }
}

// The text of a note, without the note's own brackets.
fn note_fits(text: &[u8]) -> bool
    ensures { result ≡ note_fits text.now }
{
    let mut depth = 0;
    for &c in text {
        if !is_printable(c) {
            return false;
        }
        let Some(next) = depth_behind(depth, c) else {
            return false;
        };
        depth = next;
    }
    depth == 0
}

// What follows `(note `: a text that fits, and the note's own bracket as the last byte.
#[tactic(auto, using(crate::proofs::NoteText::note_empty, crate::proofs::NoteText::note_unclosed, crate::proofs::NoteText::note_closed))]
pub fn ends_note(part: &[u8]) -> bool
    ensures { cond result note bad ≡ note_form part.now }
{
    match part {
        [text @ .., b')'] => note_fits(text),
        _ => false,
    }
}
