// Whether a step is allowed.

ghost use Rattle.std.specs.Prelude.{◌≡◌, true, ◌&&◌};
ghost use Rattle.flow_model.specs.Machine.State.{Core};
ghost use Rattle.flow_model.specs.Machine.Steps.{allowed};
ghost use Rattle.flow_model.specs.Parts.Books.{allowed_in};
ghost use Rattle.step_rules.specs.Fits.{IsWhole, IsWholeOf, listed};
ghost use Rattle.step_rules.specs.Known.{is_known, are_nodes, is_of_live, nodes_of_step};

use crate::ending::{may_collect, may_end};
use crate::evaluating::{may_evaluate, may_evaluate_body};
use crate::finishing::{may_resolve, may_skip};
use crate::lists::Lists;
use crate::picking::{may_discover, may_drop};
use crate::reading::{may_gather, may_look, may_mark};
use crate::wanting::{may_frame, may_start};
use flow_model::Step;
use flow_state::Book;
use signal_graph::graph::Graph;

/// Whether a step is allowed in the state of this book and these lists, whatever the step names: one of a call that does
/// not live, or of a node that the graph does not have, is not allowed. A Mark is asked for at the call's open nodes alone.
/// Takes no memory.
pub fn allowed<L: Lists>(book: &Book, graph: &Graph, lists: &mut L, step: Step) -> bool
    requires { IsWhole graph.now book.now (L.listing_of lists.old) (L.nodes lists.old) }
    ensures allowed { (s : Core) → IsWholeOf graph.now s book.now (L.listing_of lists.old) (L.nodes lists.old)
        → result ≡ allowed graph.now s step }
    ensures lists { L.listing_of lists.new ≡ L.listing_of lists.old }
    ensures nodes { L.nodes lists.new ≡ L.nodes lists.old }
{
    if !is_known(book, graph, step) {
        return false;
    }
    may_step(book, graph, lists, step)
}

// The same of a step whose call lives and whose nodes are the graph's.
fn may_step<L: Lists>(book: &Book, graph: &Graph, lists: &mut L, step: Step) -> bool
    requires whole { IsWhole graph.now book.now (L.listing_of lists.old) (L.nodes lists.old) }
    requires known { is_known graph.now book.now step ≡ true }
    ensures allowed { result ≡ allowed_in graph.now book.now.book (listed (L.listing_of lists.old)) step }
    ensures lists { L.listing_of lists.new ≡ L.listing_of lists.old }
    ensures nodes { L.nodes lists.new ≡ L.nodes lists.old }
{
    match step {
        Step::Frame { version, node } => may_frame(book, graph, lists, version, node),
        Step::Start { version } => may_start(book, version),
        Step::Skip { version, node } => may_skip(book, graph, lists, version, node),
        Step::Gather {
            version,
            node,
            input,
        } => may_gather(book, graph, lists, version, node, input),
        Step::Evaluate { version, node } => may_evaluate(book, graph, lists, version, node),
        Step::Body { version, node } => may_evaluate_body(book, graph, lists, version, node),
        Step::Resolve { version, node } => may_resolve(book, graph, lists, version, node),
        Step::Discover {
            version,
            node,
            candidate,
        } => may_discover(book, graph, lists, version, node, candidate),
        Step::Drop {
            version,
            node,
            candidate,
        } => may_drop(book, graph, lists, version, node, candidate),
        Step::Mark { version, node } => may_mark(book, graph, lists, version, node),
        Step::Look { version } => may_look(book, graph, lists, version),
        Step::End { version } => may_end(book, version),
        Step::Collect { node } => may_collect(book, graph, lists, node),
    }
}

// Whether the step's call lives and its nodes are the graph's.
fn is_known(book: &Book, graph: &Graph, step: Step) -> bool
    ensures { result ≡ is_known graph.now book.now step }
{
    if !is_of_live(book, step.version()) {
        return false;
    }
    are_nodes(graph, step)
}

fn is_of_live(book: &Book, version: Option<u32>) -> bool
    ensures { result ≡ is_of_live book.now version }
{
    match version {
        Some(version) => book.live(version),
        None => true,
    }
}

fn are_nodes(graph: &Graph, step: Step) -> bool
    ensures { result ≡ are_nodes graph.now (nodes_of_step step) }
{
    match step {
        Step::Frame { node, .. }
        | Step::Skip { node, .. }
        | Step::Evaluate { node, .. }
        | Step::Body { node, .. }
        | Step::Resolve { node, .. }
        | Step::Mark { node, .. }
        | Step::Collect { node } => node < graph.len(),
        Step::Gather { node, input, .. } => node < graph.len() && input < graph.len(),
        Step::Discover {
            node,
            candidate,
            ..
        }
        | Step::Drop {
            node,
            candidate,
            ..
        } => { node < graph.len() && candidate < graph.len() }
        Step::Start { .. } | Step::Look { .. } | Step::End { .. } => true,
    }
}
