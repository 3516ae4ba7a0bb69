// The numbers of the scope paper, each once, and the types that the part's entries are asked and answer with. What each case
// of an enum means in the paper's numbers stands in specs/Answers.antt; the rest of specs/ holds the definitions that every
// promise of the part cites. "02 §1" is paragraph 1 of the paper of change requests.
#![tactic(auto)]

ghost use Rattle.std.specs.Prelude.{◌≡◌};
ghost use Rattle.definitions.specs.Answers.{MoveRead, number_of_move, code_of, event_of, number_of, shown_in};

// "N threads, 1 to 200"
pub const MOST_THREADS: u8 = 200;

// "phases are at most 17"; "Add phase 18" (02 §1)
pub const LAST_PHASE: u8 = 18;

// How many phases there are.
pub const PHASE_COUNT: usize = LAST_PHASE as usize + 1;

// "the target (a thread number, or 255 for none)"
pub const NO_TARGET: u8 = 255;

// "The history has an odd length or exceeds 60,000 bytes"
pub const MOST_HISTORY: usize = 60_000;

// "the script breaks its form or exceeds 30,000 bytes"
pub const MOST_SCRIPT: usize = 30_000;

// The bytes of the shortest line of a move, `(0 (go))` with its line feed, and so the most moves that a script can have.
pub const SHORTEST_MOVE: usize = 9;

pub const MOST_MOVES: usize = MOST_SCRIPT / SHORTEST_MOVE;

// "the run's output, for which 65,536 bytes always suffice"
pub const ENOUGH_OUTPUT: usize = 65_536;

// "to depth 16 with the outermost as 1"
pub const MOST_DEPTH: u8 = 16;

// "A request is thread, move and target, 16 bits each"
#[derive(Clone, Copy)]
pub struct Request {
    pub thread: u16,
    pub mv: u16,
    pub target: u16,
}

// "Byte 0 is N, byte 1 the mutex (0 or 1), byte 2 the target"
#[derive(Clone, Copy)]
pub struct Head {
    pub threads: u8,
    pub mutex: u8,
    pub target: u8,
}

// "Then for each thread: phase, busy, forbidden."
#[derive(Clone, Copy)]
pub struct Task {
    pub phase: u8,
    pub busy: u8,
    pub forbidden: u8,
}

// "Moves: 0 go, 1 call shared, 2 call exclusive, 3 set, 4 clear, 5 relent."; "New move 6, hold" (02 §1)
#[derive(Clone, Copy, PartialEq, Eq)]
pub enum Move {
    Go,
    CallShared,
    CallExclusive,
    Set,
    Clear,
    Relent,
    Hold,
}

impl Move {
    // In the order of their numbers.
    pub const ALL: [Move; 7] = [
        Move::Go,
        Move::CallShared,
        Move::CallExclusive,
        Move::Set,
        Move::Clear,
        Move::Relent,
        Move::Hold,
    ];
}

// Refusal 4: "Refusal 4 is now a move above 6" (02 §1)
impl TryFrom<u16> for Move {
    type Error = Refusal;

    ghost try_from_gives = { MoveRead };

    fn try_from(number: u16) -> Result<Move, Refusal> {
        match number {
            0 => Ok(Move::Go),
            1 => Ok(Move::CallShared),
            2 => Ok(Move::CallExclusive),
            3 => Ok(Move::Set),
            4 => Ok(Move::Clear),
            5 => Ok(Move::Relent),
            6 => Ok(Move::Hold),
            _ => Err(Refusal::NoMove),
        }
    }
}

impl From<Move> for u8 {
    ghost from_gives = { λ mv number. number ≡ number_of_move mv };

    fn from(mv: Move) -> u8 {
        mv as u8
    }
}

impl From<Move> for u16 {
    ghost from_gives = { λ mv number. number ≡ number_of_move mv };

    fn from(mv: Move) -> u16 {
        mv as u16
    }
}

// "The eight events bear codes 1 to 8"
#[derive(Clone, Copy, PartialEq, Eq)]
pub enum Event {
    EnterSharedCall = 1,
    EnterSharedReturn = 2,
    LeaveSharedCall = 3,
    LeaveSharedReturn = 4,
    EnterExclusiveCall = 5,
    EnterExclusiveReturn = 6,
    LeaveExclusiveCall = 7,
    LeaveExclusiveReturn = 8,
}

impl Event {
    // The range of the codes.
    pub const FIRST: u8 = 1;

    pub const LAST: u8 = 8;

    #[tactic(auto, unfolding(crate::specs::Answers::event_of, crate::specs::Answers::events))]
    pub fn from_code(code: u8) -> Option<Event>
        ensures { result ≡ event_of code }
    {
        match code {
            Event::FIRST => Some(Event::EnterSharedCall),
            2 => Some(Event::EnterSharedReturn),
            3 => Some(Event::LeaveSharedCall),
            4 => Some(Event::LeaveSharedReturn),
            5 => Some(Event::EnterExclusiveCall),
            6 => Some(Event::EnterExclusiveReturn),
            7 => Some(Event::LeaveExclusiveCall),
            Event::LAST => Some(Event::LeaveExclusiveReturn),
            _ => None,
        }
    }
}

impl From<Event> for u8 {
    ghost from_gives = { λ event code. code ≡ code_of event };

    fn from(event: Event) -> u8 {
        event as u8
    }
}

// Why a request is turned down: the numbers 1 to 12 in checking order, and 13 of the watcher, tested after 1 and before 9.
#[derive(Clone, Copy, PartialEq, Eq)]
pub enum Refusal {
    BadSize = 1,
    Unsound = 2,
    NoThread = 3,
    NoMove = 4,
    BadTarget = 5,
    NotInPhase = 6,
    MutexHeld = 7,
    BadForm = 8,
    UnknownPair = 9,
    NotNext = 10,
    Occupied = 11,
    NoRoom = 12,
    Inconsistent = 13,
}

impl From<Refusal> for u8 {
    ghost from_gives = { λ refusal number. number ≡ number_of refusal };

    fn from(refusal: Refusal) -> u8 {
        refusal as u8
    }
}

// "The answer is the number and a place": a refusal with its place.
#[derive(Clone, Copy)]
pub struct Refused {
    pub refusal: Refusal,
    pub place: usize,
}

impl Refusal {
    pub fn at(self, place: usize) -> Refused
        ensures { result ≡ record { refusal = self; place = place } }
    {
        Refused {
            refusal: self,
            place,
        }
    }
}

// "else 0": the place of a refusal that has none of its own.
impl From<Refusal> for Refused {
    ghost from_gives = { λ why refused. refused ≡ record { refusal = why; place = 0 } };

    fn from(refusal: Refusal) -> Refused {
        refusal.at(0)
    }
}

// What an accepted move answers. The table stays in the lent bytes.
#[derive(Clone, Copy)]
pub enum Outcome {
    Shown(Event),
    // No event is shown, and the move was no retry.
    Quiet,
    // No event is shown, and the move was a retry (02 §7).
    Retry,
}

impl Outcome {
    // The event that is shown, if one is.
    pub fn event(self) -> Option<Event>
        ensures { result ≡ shown_in self }
    {
        match self {
            Outcome::Shown(event) => Some(event),
            Outcome::Quiet | Outcome::Retry => None,
        }
    }
}

// "A watcher record holds N, each thread's place in its round .., and how many are in shared and in exclusive." (02 §2): bytes
// alone, 203 of them, so that it has no padding and may stand at any address.
#[repr(C)]
#[derive(Clone, Copy)]
pub struct Watcher {
    pub threads: u8,
    pub shared: u8,
    pub exclusive: u8,
    pub places: [u8; 200],
}

// What a run answers: the number of bytes written, and how many of the moves made were retries (02 §7).
#[derive(Clone, Copy)]
pub struct Running {
    pub bytes: usize,
    pub retries: usize,
}

// What reading a script answers: N and the number of bytes written (02 §3).
#[derive(Clone, Copy)]
pub struct Reading {
    pub threads: u8,
    pub bytes: usize,
}

// What the dispatcher answers: "thread, move and target with the move's own answer"; or that no thread has a move of its
// kind; or why the table is turned down (02 §8).
#[derive(Clone, Copy)]
pub enum Dispatched {
    Moved {
        thread: u8,
        mv: Move,
        target: u8,
        event: Option<Event>,
    },
    Waiting,
    Refused(Refusal),
}
