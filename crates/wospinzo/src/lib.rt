// The part's entries: thin functions on numbers and byte slices, each with its promise. An answer is one number (crate
// answer_numbers). The crate wospinzo_c exports them to C under the same names and promises.
#![tactic(auto)]

ghost use Rattle.std.specs.Prelude.{◌≡◌};
ghost use Rattle.definitions.specs.Answers.{delivery_reply, delivery_output};
ghost use Rattle.definitions.specs.Dispatch.{dispatch_reply, dispatch_table};
ghost use Rattle.definitions.specs.Moves.{ask, move_reply, move_table};
ghost use Rattle.definitions.specs.Nodes.{nodes_entry};
ghost use Rattle.definitions.specs.OpenMoves.{open_entry};
ghost use Rattle.definitions.specs.PlainLock.{check_reply};
ghost use Rattle.definitions.specs.Plan.{plan_entry, plan_length_reply};
ghost use Rattle.definitions.specs.Run.{run_entry};
ghost use Rattle.definitions.specs.Scripts.{write_entry, read_entry};
ghost use Rattle.definitions.specs.Table.{fresh_entry};
ghost use Rattle.definitions.specs.Watch.{start_reply, start_record, event_reply, event_record, question_reply};
ghost use Rattle.answer_numbers.specs.Encoding.{move_number, turn_number, run_number, count_number, watch_number, inside_number, read_number, held};
ghost use Rattle.wospinzo.specs.Version.{version};

use answer_numbers::{answer_number, hold_place, placeless_number};
use definitions::{Request, Watcher};
use move_numbers::dispatched_number;

// The part's version: major, minor and patch number. docs/CHANGELOG.md says what each of them promises.
const MAJOR: u32 = 1;

const MINOR: u32 = 7;

const PATCH: u32 = 1;

// A fresh table for N threads.
#[tactic(auto, using(answer_numbers::proofs::Small::fresh_small))]
pub fn wospinzo_fresh(threads: u16, out: &mut [u8]) -> u64
    ensures value { result ≡ count_number (delivery_reply (fresh_entry threads) out.old) }
    ensures out_after { out.new ≡ delivery_output (fresh_entry threads) out.old }
{
    answer_number(table::fresh(threads, out))
}

// One move of one thread, which also says whether it was a retry; the table stays in the lent bytes.
pub fn wospinzo_move(table: &mut [u8], thread: u16, mv: u16, target: u16) -> u64
    ensures value { result ≡ move_number (move_reply table.old (ask thread mv target)) }
    ensures table_after { table.new ≡ move_table table.old (ask thread mv target) }
{
    placeless_number(lock::make_move(table, Request { thread, mv, target }))
}

// One turn of the dispatcher: a move that is no call, no retry and no leaving, for the lowest thread that has one.
pub fn wospinzo_dispatch(table: &mut [u8]) -> u64
    ensures value { result ≡ turn_number (dispatch_reply table.old) }
    ensures table_after { table.new ≡ dispatch_table table.old }
{
    dispatched_number(dispatch::dispatch(table))
}

// The nodes of all threads.
#[tactic(auto, using(answer_numbers::proofs::Small::nodes_small))]
pub fn wospinzo_nodes(table: &[u8], out: &mut [u8]) -> u64
    ensures value { result ≡ count_number (delivery_reply (nodes_entry table.now) out.old) }
    ensures out_after { out.new ≡ delivery_output (nodes_entry table.now) out.old }
{
    answer_number(nodes::nodes(table, out))
}

// The moves that a thread's requests would have accepted.
#[tactic(auto, using(answer_numbers::proofs::Small::open_small))]
pub fn wospinzo_open_moves(table: &[u8], thread: u16, out: &mut [u8]) -> u64
    ensures value { result ≡ count_number (delivery_reply (open_entry table.now thread) out.old) }
    ensures out_after { out.new ≡ delivery_output (open_entry table.now thread) out.old }
{
    answer_number(listing::open_moves(table, thread, out))
}

// Whether the plain lock permits a history.
#[tactic(auto, using(answer_numbers::proofs::Small::check_small))]
pub fn wospinzo_check(threads: u16, history: &[u8]) -> u64
    ensures { result ≡ count_number (check_reply threads history.now) }
{
    answer_number(history::check(threads, history))
}

// How many requests make a permitted history happen: the plan's count, without the plan.
#[tactic(auto, using(answer_numbers::proofs::Small::length_small))]
pub fn wospinzo_plan_length(threads: u16, history: &[u8]) -> u64
    ensures { result ≡ count_number (plan_length_reply threads history.now) }
{
    answer_number(shares::plan_length(threads, history))
}

// The requests that make a permitted history happen.
#[tactic(auto, using(answer_numbers::proofs::Small::plan_small))]
pub fn wospinzo_plan(threads: u16, history: &[u8], out: &mut [u8]) -> u64
    ensures value { result ≡ count_number (delivery_reply (plan_entry threads history.now) out.old) }
    ensures out_after { out.new ≡ delivery_output (plan_entry threads history.now) out.old }
{
    answer_number(plan::plan(threads, history, out))
}

// The run of a script, with the number of retries among its moves.
pub fn wospinzo_run(script: &[u8], out: &mut [u8]) -> u64
    ensures value { result ≡ run_number (delivery_reply (run_entry script.now) out.old) }
    ensures out_after { out.new ≡ delivery_output (run_entry script.now) out.old }
{
    answer_number(script::run(script, out))
}

// A list of moves, byte triples, as a script.
#[tactic(auto, using(answer_numbers::proofs::Small::write_small))]
pub fn wospinzo_write_script(threads: u16, triples: &[u8], out: &mut [u8]) -> u64
    ensures value { result ≡ count_number (held (delivery_reply (write_entry threads triples.now) out.old)) }
    ensures out_after { out.new ≡ delivery_output (write_entry threads triples.now) out.old }
{
    answer_number(hold_place(writing::write(threads, triples, out)))
}

// The moves of a script, as byte triples, and its N.
pub fn wospinzo_read_script(script: &[u8], out: &mut [u8]) -> u64
    ensures value { result ≡ read_number (delivery_reply (read_entry script.now) out.old) }
    ensures out_after { out.new ≡ delivery_output (read_entry script.now) out.old }
{
    answer_number(reading::read(script, out))
}

// A watcher's record for N threads, before any event.
pub fn wospinzo_watch_start(threads: u16, watcher: &mut Watcher) -> u64
    ensures value { result ≡ watch_number (start_reply threads) }
    ensures watcher_after { watcher.new ≡ start_record threads watcher.old }
{
    let begun = watch::start(threads, *watcher);
    *watcher = begun.watcher;
    placeless_number(begun.answer)
}

// One event, judged and added where the record is kept.
pub fn wospinzo_watch_event(watcher: &mut Watcher, thread: u16, event: u16) -> u64
    ensures value { result ≡ watch_number (event_reply watcher.old (record { thread = thread; event = event })) }
    ensures watcher_after { watcher.new ≡ event_record watcher.old (record { thread = thread; event = event }) }
{
    let update = watch::watch_event(*watcher, thread, event);
    watcher.places[update.at] = update.place;
    watcher.shared = update.shared;
    watcher.exclusive = update.exclusive;
    placeless_number(update.answer)
}

// "Is anybody inside?"
pub fn wospinzo_watch_inside(watcher: &Watcher) -> u64
    ensures { result ≡ inside_number (question_reply watcher.now) }
{
    placeless_number(watch::anybody_inside(watcher))
}

// The version, for a maker's program to compare with the header's that it was built with.
pub fn wospinzo_version() -> u32
    ensures { result ≡ version }
{
    65_536 * MAJOR + 256 * MINOR + PATCH
}
