// The value of what an entry answers where it turns nothing down.
ghost use Rattle.std.specs.Prelude.{ℕ, ◌≡◌, ◌<◌};
ghost use Rattle.answer_numbers.specs.Encoding.{value_bound, AllSmall, count_value, watch_value, inside_value, outcome_value, running_value, reading_value};
ghost use Rattle.answer_numbers.specs.Bounds.{unit_small, bool_small, outcome_small};

use crate::RETRY_UNIT;
use definitions::{Outcome, Reading, Running};

pub trait Valued {
    // The value, which is small where a number is made of it.
    ghost worth: { Self → ℕ };

    fn value(self) -> u64
        requires { worth self < value_bound }
        ensures { result ≡ worth self };
}

// What has a small value always.
pub trait Bounded: Valued {
    ghost bounded: { AllSmall Self.worth };
}

// A count.
impl Valued for usize {
    ghost worth = { count_value };

    fn value(self) -> u64 {
        self as u64
    }
}

// What a watcher's start or event answers has the value 0.
impl Valued for () {
    ghost worth = { watch_value };

    fn value(self) -> u64 {
        0
    }
}

impl Bounded for () {
    ghost bounded = { unit_small };
}

// What a watcher's question answers: 1 for yes.
impl Valued for bool {
    ghost worth = { inside_value };

    fn value(self) -> u64 {
        u64::from(self)
    }
}

impl Bounded for bool {
    ghost bounded = { bool_small };
}

// What a move answers: the event's code, or a retry.
impl Valued for Outcome {
    ghost worth = { outcome_value };

    fn value(self) -> u64 {
        match self {
            Outcome::Shown(event) => u8::from(event) as u64,
            Outcome::Quiet => 0,
            Outcome::Retry => RETRY_UNIT,
        }
    }
}

impl Bounded for Outcome {
    ghost bounded = { outcome_small };
}

// What a run answers: the number of bytes, and the number of retries above it.
impl Valued for Running {
    ghost worth = { running_value };

    fn value(self) -> u64 {
        self.bytes as u64 + RETRY_UNIT * self.retries as u64
    }
}

// What reading answers: N in the lowest byte, and the number of bytes above it.
impl Valued for Reading {
    ghost worth = { reading_value };

    fn value(self) -> u64 {
        self.threads as u64 + 256 * self.bytes as u64
    }
}
