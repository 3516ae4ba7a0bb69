// What a line of a script says, and the reader of what follows the thread's number in the line of a move.
#![tactic(auto)]

ghost use Rattle.std.specs.Prelude.{◌≡◌};
ghost use Rattle.definitions.specs.Answers.{number_of_move};
ghost use Rattle.definitions.specs.Forms.{request, target_form, aimed_form, act_form};
ghost use Rattle.definitions.specs.Moves.{ask};
ghost use Rattle.definitions.specs.Texts.{number_read};
ghost use Rattle.act_forms.specs.Readings.{form_for};

use definitions::{Move, Request};
use words::{read_closed, same_text, starts_with};

// What a line says; what each case means stands in specs/Readings.antt. A line that the grammar doesn't have says nothing.
#[derive(Clone, Copy)]
pub enum Form {
    // The number of threads.
    Threads(u16),
    Request(Request),
    Note,
}

// A request as a form.
fn asking(thread: u16, mv: Move, target: u16) -> Option<Form>
    ensures { form_for result ≡ request (ask thread (number_of_move mv) target) }
{
    Some(Form::Request(Request {
        thread,
        mv: u16::from(mv),
        target,
    }))
}

// What follows `(T (set ` or `(T (clear `: `K))`.
#[tactic(auto, unfolding(definitions::specs::Texts::bytes))]
fn read_target(thread: u16, mv: Move, part: &[u8]) -> Option<Form>
    ensures { form_for result ≡ target_form thread (number_of_move mv) (number_read part.now) }
{
    let target = read_closed(part, b"))")?;
    asking(thread, mv, target.value)
}

// A move with a target, from the space behind the thread's number on.
#[tactic(auto, unfolding(definitions::specs::Texts::bytes, definitions::specs::Forms::aimed_form))]
fn read_aimed(thread: u16, part: &[u8]) -> Option<Form>
    ensures { form_for result ≡ aimed_form thread part.now }
{
    if starts_with(part, b" (set ") {
        return read_target(thread, Move::Set, &part[6..]);
    }
    if starts_with(part, b" (clear ") {
        return read_target(thread, Move::Clear, &part[8..]);
    }
    None
}

// What follows the thread's number, from the space on. A move without a target has target 0.
// Five comparisons: the proof of a match on the texts doesn't close, and rows of a constant table would be stored to the stack for each line.
#[inline(always)]
#[tactic(auto, unfolding(definitions::specs::Texts::bytes, definitions::specs::Forms::act_form, definitions::specs::Forms::plain_form, definitions::specs::Forms::plain_moves, definitions::specs::Threads::gather, definitions::specs::Forms::act_text))]
pub fn read_act(thread: u16, part: &[u8]) -> Option<Form>
    ensures { form_for result ≡ act_form thread part.now }
{
    if same_text(part, b" (go))") {
        return asking(thread, Move::Go, 0);
    }
    if same_text(part, b" (call shared))") {
        return asking(thread, Move::CallShared, 0);
    }
    if same_text(part, b" (call exclusive))") {
        return asking(thread, Move::CallExclusive, 0);
    }
    if same_text(part, b" (relent))") {
        return asking(thread, Move::Relent, 0);
    }
    if same_text(part, b" (hold))") {
        return asking(thread, Move::Hold, 0);
    }
    read_aimed(thread, part)
}
