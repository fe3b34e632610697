// The threads.

ghost use Rattle.std.specs.Prelude.{◌≡◌, ℕ, ◌+◌, ◌^◌, ◌<◌, ◌≤◌, ◌++◌, [], length, flat_map};
ghost use Rattle.std.specs.Prelude.{slice_index_or, true, vec_len, vec_capacity, All, IfOk};
ghost use Rattle.script_tree.specs.declared.limits.TheConstants.{THREADS};
ghost use Rattle.flow_model.specs.Follows.Callers.{IsWithin};
ghost use Rattle.worker_gate.specs.Scripts.{AreMade, AreBegun};
ghost use Rattle.worker_gate.specs.Seats.{seats_of, passes_of, lists_of, fronts_of, callers_of};
ghost use Rattle.worker_gate.specs.Seats.{all_enough, AllTaken, AreNumbered, IsServed};

use crate::gate::Gate;
use crate::turn::Turn;
use crate::worker::make_script;
use script_tree::items::Items;
use script_tree::memory::OutOfMemory;
use signal_graph::call::{CallList, Scripts};
use signal_graph::log::RefusedList;
use std::alloc::Global;
use std::sync::Wait;
use std::thread::Threads;
use std::{mem, thread};
use sweeper::{Naming, Pass, PassList, Sweeper};

/// A pass that is lent to a thread, what of its script was refused, and whether there was memory.
pub(crate) struct Seat<J: Naming> {
    pub(crate) pass: Option<Pass<J>>,
    pub(crate) refused: RefusedList,
    pub(crate) enough: bool,
}

// Seats all passes, in their order.
fn seat_all<J: Naming>(alloc: Global, passes: &mut PassList<J>, seats: &mut Vec<Seat<J>>)
    requires { vec_len seats.old + length passes.old ≤ vec_capacity seats.old }
    ensures seats { seats.new.items ≡ seats.old.items ++ seats_of passes.old }
    ensures len { vec_len seats.new ≡ vec_len seats.old + length passes.old }
    ensures empty { passes.new ≡ [] }
{
    match passes.take_first() {
        None => {}
        Some(pass) => {
            seats.push_reserved(Seat {
                pass: Some(pass),
                refused: Items::new(alloc),
                enough: true,
            });
            seat_all(alloc, passes, seats);
        }
    }
}

// Takes all passes back, and lays the lists of what was refused end to end. True where there was memory for all.
fn unseat_all<J: Naming>(
    mut seats: Vec<Seat<J>>,
    passes: &mut PassList<J>,
    refused: &mut RefusedList,
) -> bool
    requires taken { AllTaken seats.items }
    requires room { length passes.old + vec_len seats ≤ J.callers }
    ensures passes { passes.new ≡ passes.old ++ passes_of seats.items }
    ensures refused { result ≡ true → refused.new ≡ refused.old ++ flat_map (λ list. list) (lists_of seats.items) }
    ensures enough { result ≡ true → all_enough seats.items ≡ true }
{
    if seats.is_empty() {
        seats.destroy_empty();
        return true;
    }
    let Seat {
        pass,
        refused: own,
        enough,
    } = seats.remove(0);
    match pass {
        None => unreachable!(),
        Some(pass) => {
            passes.push(pass);
            let listed = refused.extend_from_slice(own.as_slice()).is_ok();
            let rest = unseat_all(seats, passes, refused);
            enough && listed && rest
        }
    }
}

// A seat's thread makes its script.
fn serve<J: Naming, G: Gate, R: Wait>(
    rt: &R,
    alloc: Global,
    sweeper: &Sweeper<'_, J>,
    seat: &mut Seat<J>,
    script: &CallList,
    gate: &G,
)
    requires few { length script.now < 2 ^ 32 }
    requires within { All IsWithin script.now }
    requires none { seat.old.refused ≡ [] }
    ensures { IsServed J.graph J.limit script.now seat.old.pass seat.new }
{
    match seat.pass.take() {
        None => {}
        Some(pass) => {
            let script = script.as_slice();
            let refused = &mut seat.refused;
            let mut turn = Turn::new(sweeper.turnstile(), !gate.may_wait());
            let turn = &mut turn;
            let (pass, enough) = make_script(rt, alloc, sweeper, pass, script, gate, turn, refused);
            seat.enough = enough;
            let before = mem::replace(&mut seat.pass, Some(pass));
            let None = before else { unreachable!() };
        }
    }
}

// A thread for each seat makes its script; where none can be started the scripts are made one after the other.
fn run_seats<J: Naming + Send + Sync, G: Gate, R: Threads + Wait + Sync>(
    rt: &R,
    alloc: Global,
    sweeper: &Sweeper<'_, J>,
    seats: &mut [Seat<J>],
    scripts: &[CallList],
    gate: &G,
)
    requires some { 0 < length seats.old }
    requires scripts { length seats.old ≤ length scripts.now }
    requires few_calls { All (λ calls. length calls < 2 ^ 32) scripts.now }
    requires within { All (All IsWithin) scripts.now }
    requires none { All (λ seat. seat.refused ≡ []) seats.old }
    ensures { (i : ℕ) (s : _) (d : _) → i < length seats.old
        → IsServed J.graph J.limit (slice_index_or scripts.now i d) (slice_index_or seats.old i s).pass (slice_index_or seats.new i s) }
{
    let threads = seats.len();
    thread::for_each_mut(
        rt,
        seats,
        threads,
        &|i: usize, seat: &mut Seat<J>|
            requires { (i < length scripts.now) × All (λ calls. length calls < 2 ^ 32) scripts.now × All (All IsWithin) scripts.now
                × (seat.now.refused ≡ []) }
            ensures { (d : _) → IsServed J.graph J.limit (slice_index_or scripts.entry.now i d) seat.entry.now.pass seat.exit.now }
        { serve(rt, alloc, sweeper, seat, &scripts[i], gate) },
    );
}

// The same for a vector of seats.
fn run_vec<J: Naming + Send + Sync, G: Gate, R: Threads + Wait + Sync>(
    rt: &R,
    alloc: Global,
    sweeper: &Sweeper<'_, J>,
    mut seats: Vec<Seat<J>>,
    scripts: &[CallList],
    gate: &G,
) -> Vec<Seat<J>>
    requires some { 0 < vec_len seats }
    requires scripts { vec_len seats ≤ length scripts.now }
    requires few_calls { All (λ calls. length calls < 2 ^ 32) scripts.now }
    requires within { All (All IsWithin) scripts.now }
    requires none { All (λ seat. seat.refused ≡ []) seats.items }
    ensures served { (i : ℕ) (s : _) (d : _) → i < vec_len seats
        → IsServed J.graph J.limit (slice_index_or scripts.now i d) (slice_index_or seats.items i s).pass
        (slice_index_or result.items i s) }
    ensures len { (vec_len result ≡ vec_len seats) × (length result.items ≡ length seats.items) }
{
    run_seats(rt, alloc, sweeper, seats.as_mut_slice(), scripts, gate);
    seats
}

/// Each pass makes the calls of its script over the sweeper, in a thread of its own; all threads have ended when this returns. The
/// passes are of callers 1 and so on, as many as there are scripts, 1 to 256.
///
/// The passes of the same callers come back in their order, each with a front that goes on from the old one. With Ok the own calls
/// of each have grown by the well-named calls of its script, in their order, and the list names all other calls: each misnamed call
/// with its place; and where as many calls have begun as may, the calls from some one on with the limit. The list is in the order
/// of callers and then of numbers. Where there was no memory each thread has finished its live call and stopped, so that the own
/// calls of each have grown by the first of the well-named calls of its script.
///
/// Before each evaluation a thread passes the gate. It holds no lock of the sweeper there, and no turn where the gate may wait. Takes
/// memory. Locks, and may wait.
pub fn run_over<J: Naming + Send + Sync, G: Gate, R: Threads + Wait + Sync>(
    rt: &R,
    alloc: Global,
    sweeper: &Sweeper<'_, J>,
    mut passes: PassList<J>,
    scripts: &Scripts,
    gate: &G,
) -> (PassList<J>, Result<RefusedList, OutOfMemory>)
    requires some { 0 < length scripts.now }
    requires few { length scripts.now ≤ THREADS }
    requires as_many { length passes ≡ length scripts.now }
    requires numbered { AreNumbered passes }
    requires few_calls { All (λ calls. length calls < 2 ^ 32) scripts.now }
    requires within { All (All IsWithin) scripts.now }
    ensures callers { callers_of result.0 ≡ callers_of passes }
    ensures made { IfOk result.1 (λ refused. AreMade J.graph J.limit scripts.now refused (fronts_of passes) (fronts_of result.0)) }
    ensures begun { AreBegun J.graph scripts.now (fronts_of passes) (fronts_of result.0) }
{
    let count = passes.len();
    let Ok(mut seats) = Vec::with_capacity(alloc, count) else {
        return (passes, Err(OutOfMemory));
    };
    seat_all(alloc, &mut passes, &mut seats);
    let seats = run_vec(rt, alloc, sweeper, seats, scripts.as_slice(), gate);
    let mut refused = Items::new(alloc);
    if unseat_all(seats, &mut passes, &mut refused) {
        (passes, Ok(refused))
    } else {
        (passes, Err(OutOfMemory))
    }
}
