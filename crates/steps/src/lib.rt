// The steps that moves are made of, by value: what each writes and answers.
#![tactic(auto)]

ghost use Rattle.std.specs.Prelude.{◌≡◌};
ghost use Rattle.definitions.specs.declared.Outcome.TheVariants.{Quiet, Shown};
ghost use Rattle.steps.specs.Steps.{unseen_by, passed, with_busy, with_mutex, aimed_by};

use definitions::{Event, Head, Outcome, Task};
use views::{Decided, View};

// What a move that shows no event answers, by whether it was a retry.
pub fn unseen(retry: bool) -> Outcome
    ensures { result ≡ unseen_by retry }
{
    if retry {
        Outcome::Retry
    } else {
        Outcome::Quiet
    }
}

// The mover goes to a phase, and all else stays.
pub fn pass(v: View, phase: u8, outcome: Outcome) -> Decided
    ensures { result ≡ passed v phase outcome }
{
    Decided {
        head: v.head,
        mover: Task { phase, ..v.mover },
        forbidden: v.subject.forbidden,
        outcome,
    }
}

// The same, with an event.
pub fn show(v: View, phase: u8, event: Event) -> Decided
    ensures { result ≡ passed v phase (Shown event) }
{
    pass(v, phase, Outcome::Shown(event))
}

// To a phase, with a value for busy.
pub fn set_busy(v: View, phase: u8, busy: u8) -> Decided
    ensures { result ≡ with_busy v phase busy }
{
    Decided {
        mover: Task {
            phase,
            busy,
            ..v.mover
        },
        ..pass(v, phase, Outcome::Quiet)
    }
}

// To a phase, with a value for the mutex.
pub fn set_mutex(v: View, phase: u8, mutex: u8, outcome: Outcome) -> Decided
    ensures { result ≡ with_mutex v phase mutex outcome }
{
    Decided {
        head: Head { mutex, ..v.head },
        ..pass(v, phase, outcome)
    }
}

// To a phase, with values for the target and the subject's forbidden.
pub fn aim(v: View, phase: u8, target: u8, forbidden: u8, outcome: Outcome) -> Decided
    ensures { result ≡ aimed_by v phase target forbidden outcome }
{
    Decided {
        head: Head { target, ..v.head },
        forbidden,
        ..pass(v, phase, outcome)
    }
}
