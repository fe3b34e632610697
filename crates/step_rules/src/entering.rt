// Steps for which a call enters a list, or has an entry there.

ghost use Rattle.std.specs.Prelude.{◌≡◌, ◌<◌, Some, true};
ghost use Rattle.node_versions.specs.Entries.{has, is_mark};
ghost use Rattle.flow_model.specs.Machine.State.{opens};
ghost use Rattle.flow_state.specs.Booked.{live_in, node_count};
ghost use Rattle.step_rules.specs.Fits.{IsSeatOf};
ghost use Rattle.step_rules.specs.Points.{entering_list, unless_blocked, framing_in, entered_in, reading_in, reading_candidate_in};

use crate::fronts::has_room;
use crate::lists::{Lists, Sight};
use flow_model::{Cause, Step, Turn};
use flow_state::{Book, Seat};

/// To frame a node the call enters its list, unless it has a Mark there.
pub(crate) fn framing<L: Lists>(book: &Book, lists: &mut L, version: u32, node: u32) -> Turn
    requires { node < L.nodes lists.old }
    ensures turn { result ≡ framing_in book.now (L.listing_of lists.old) version node }
    ensures lists { L.listing_of lists.new ≡ L.listing_of lists.old }
    ensures nodes { L.nodes lists.new ≡ L.nodes lists.old }
{
    let sight = lists.sight(node, version);
    let step = Step::Frame { version, node };
    if sight.is_mark {
        return Turn::Step(step);
    }
    entering(book, sight, node, step)
}

/// A step for which the call has an entry in a node's list, or enters it.
pub(crate) fn entered<L: Lists>(
    book: &Book,
    lists: &mut L,
    version: u32,
    node: u32,
    step: Step,
) -> Turn
    requires { node < L.nodes lists.old }
    ensures turn { result ≡ entered_in book.now (L.listing_of lists.old) version node step }
    ensures lists { L.listing_of lists.new ≡ L.listing_of lists.old }
    ensures nodes { L.nodes lists.new ≡ L.nodes lists.old }
{
    let sight = lists.sight(node, version);
    if sight.has {
        return Turn::Step(step);
    }
    entering(book, sight, node, step)
}

/// A step that reads a node: the call has an entry there, and no Frame stands before it.
pub(crate) fn reading<L: Lists>(
    book: &Book,
    lists: &mut L,
    version: u32,
    node: u32,
    step: Step,
) -> Turn
    requires { node < L.nodes lists.old }
    ensures turn { result ≡ reading_in book.now (L.listing_of lists.old) version node step }
    ensures lists { L.listing_of lists.new ≡ L.listing_of lists.old }
    ensures nodes { L.nodes lists.new ≡ L.nodes lists.old }
{
    let sight = lists.sight(node, version);
    if !sight.has {
        return entering(book, sight, node, Step::Mark { version, node });
    }
    unless_blocked(sight, node, step)
}

/// A step that reads a candidate: besides, the call has finished there.
pub(crate) fn reading_candidate<L: Lists>(
    book: &Book,
    seat: &Seat,
    lists: &mut L,
    version: u32,
    node: u32,
    step: Step,
) -> Turn
    requires live { live_in book.now version ≡ true }
    requires seat { IsSeatOf book.now version seat.now }
    requires node { node < node_count book.now }
    requires list { node < L.nodes lists.old }
    ensures turn { result ≡ reading_candidate_in book.now (L.listing_of lists.old) version node step }
    ensures lists { L.listing_of lists.new ≡ L.listing_of lists.old }
    ensures nodes { L.nodes lists.new ≡ L.nodes lists.old }
{
    let sight = lists.sight(node, version);
    if !sight.has {
        return entering(book, sight, node, Step::Mark { version, node });
    }
    if seat.opens(node) {
        return Turn::NotYet(Cause::InputOpen { node });
    }
    unless_blocked(sight, node, step)
}

// A step that enters a node's list; where that is full, some of it is collected first.
fn entering(book: &Book, sight: Sight, node: u32, step: Step) -> Turn
    ensures { result ≡ entering_list book.now.book.callers sight.len node step }
{
    if has_room(book, sight.len) {
        Turn::Step(step)
    } else {
        Turn::Step(Step::Collect { node })
    }
}

// A step that reads a node, unless a Frame stands before the call's entry there.
fn unless_blocked(sight: Sight, node: u32, step: Step) -> Turn
    ensures { result ≡ unless_blocked sight.blocked node step }
{
    match sight.blocked {
        Some(version) => Turn::NotYet(Cause::OpenBefore { node, version }),
        None => Turn::Step(step),
    }
}
