// The reader of a script's forms. The text of a line is handed over alone, without its line feed.
#![tactic(auto)]

ghost use Rattle.std.specs.Prelude.{◌≡◌};
ghost use Rattle.definitions.specs.Forms.{note_form, threads_form, move_form, form_of, line_form};
ghost use Rattle.definitions.specs.Texts.{number_read};
ghost use Rattle.act_forms.specs.Readings.{form_for};
ghost use Rattle.lines.specs.Lines.{line_read};

use act_forms::{Form, read_act};
use lines::Line;
use notes::ends_note;
use words::{read_closed, read_number, starts_with};

// What follows `(threads `: `N)`.
#[tactic(auto, unfolding(definitions::specs::Texts::bytes))]
fn read_threads(part: &[u8]) -> Option<Form>
    ensures { form_for result ≡ threads_form (number_read part.now) }
{
    let count = read_closed(part, b")")?;
    Some(Form::Threads(count.value))
}

// What follows a line's first bracket, where it is no threads line and no note: `T`, then the act.
#[inline(always)]
fn read_request(part: &[u8]) -> Option<Form>
    ensures { form_for result ≡ move_form (number_read part.now) }
{
    let thread = read_number(part)?;
    read_act(thread.value, &part[thread.digits..])
}

// What follows `(note `.
fn read_note(part: &[u8]) -> Option<Form>
    ensures { form_for result ≡ note_form part.now }
{
    ends_note(part).then_some(Form::Note)
}

// The form of a line's text. proofs/Spelling.antt shows that this is the inverse of the spelling of forms. It is a part of its
// caller, as are `read_request` and `act_forms::read_act`: by a function of its own each line's form is handed on in memory.
#[inline(always)]
#[tactic(auto, unfolding(definitions::specs::Texts::bytes, definitions::specs::Forms::form_of))]
pub fn read_form(text: &[u8]) -> Option<Form>
    ensures { form_for result ≡ form_of text.now }
{
    if starts_with(text, b"(threads ") {
        read_threads(&text[9..])
    } else if starts_with(text, b"(note ") {
        read_note(&text[6..])
    } else if starts_with(text, b"(") {
        read_request(&text[1..])
    } else {
        None
    }
}

// The form of a line. One that lacks its line feed has none. Inlined, so that a line isn't stored to the stack for it.
#[inline(always)]
pub fn read_line(line: Line<'_>) -> Option<Form>
    ensures { form_for result ≡ line_form (line_read line.entry) }
{
    if line.ended {
        read_form(line.text)
    } else {
        None
    }
}
