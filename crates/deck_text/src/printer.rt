// Printing a deck. Each function adds to the end of a text.

ghost use Rattle.std.specs.Prelude.{◌≡◌, ◌<◌, ◌≤◌, codes, ◌∷◌, ◌++◌, [], length, map, All, IfOk, OnOk};
ghost use Rattle.signal_graph.specs.Graph.{name_at, node_at};
ghost use Rattle.expr_script.specs.Printed.{printed};
ghost use Rattle.script_tree.specs.Printed.{value_text};
ghost use Rattle.deck_text.specs.Appended.{ends_with_word, with_word, with_head, with_names, with_more_names, with_set, with_sets};
ghost use Rattle.deck_text.specs.Appended.{with_more_sets, with_looks, with_call, with_calls, with_threads, with_selector, with_selectors};
ghost use Rattle.deck_text.specs.Appended.{with_more_selectors, with_body, with_declaration, with_node, with_nodes, CandidatesBelow};
ghost use Rattle.deck_text.specs.Printed.{canonical};
ghost use Rattle.deck_text.specs.Spelled.{SpellsDeck};
ghost use Rattle.script_tree.specs.declared.limits.TheConstants.{DECK_BYTES};

use crate::deck::Deck;
use deck_lines::laws::{canonical_line, written_value};
use expr_script::print_script_to;
use script_tree::bytes::is_word;
use script_tree::items::Text;
use script_tree::memory::OutOfMemory;
use script_tree::name::Name;
use script_tree::print::print_value;
use script_tree::script::Script;
use script_tree::value::Value;
use signal_graph::call::{Call, CallList};
use signal_graph::graph::Graph;
use signal_graph::node::{Node, Selector};
use std::alloc::Global;

fn ends_with_word(text: &[u8]) -> bool
    ensures { result ≡ ends_with_word text.now }
{
    match text.last() {
        Some(byte) => is_word(*byte),
        None => false,
    }
}

// A word, with a space before it where it follows another one.
fn push_word(text: &mut Text, word: &[u8]) -> Result<(), OutOfMemory>
    ensures { OnOk result (text.new ≡ with_word text.old word.now) }
{
    if !ends_with_word(text.as_slice()) {
        return text.extend_from_slice(word);
    }
    text.push(b' ')?;
    text.extend_from_slice(word)
}

// The word of a declaration, the declared name and `=`.
fn push_head(text: &mut Text, word: &[u8], name: &Name) -> Result<(), OutOfMemory>
    ensures { OnOk result (text.new ≡ with_head text.old word.now name.now) }
{
    push_word(text, word)?;
    push_word(text, name.as_slice())?;
    text.push(b'=')
}

// Names, each behind a comma.
#[tactic(auto, using(crate::proofs::PrintLaws::print_laws))]
fn push_more_names(text: &mut Text, names: &[Name]) -> Result<(), OutOfMemory>
    ensures { OnOk result (text.new ≡ with_more_names text.old names.now) }
{
    for name in names {
        text.push(b',')?;
        push_word(text, name.as_slice())?;
    }
    Ok(())
}

// Names, separated by commas.
#[tactic(auto, using(crate::proofs::PrintLaws::first_laws))]
fn push_names(text: &mut Text, names: &[Name]) -> Result<(), OutOfMemory>
    ensures { OnOk result (text.new ≡ with_names text.old names.now) }
{
    let Some((first, rest)) = names.split_first() else {
        return Ok(());
    };
    push_word(text, first.as_slice())?;
    push_more_names(text, rest)
}

// A name, `=` and a value.
fn push_set(text: &mut Text, set: &(Name, Value)) -> Result<(), OutOfMemory>
    ensures { OnOk result (text.new ≡ with_set text.old set.now) }
{
    push_word(text, set.0.as_slice())?;
    text.push(b'=')?;
    print_value(text, set.1)
}

#[tactic(auto, using(crate::proofs::PrintLaws::print_laws))]
fn push_more_sets(text: &mut Text, sets: &[(Name, Value)]) -> Result<(), OutOfMemory>
    ensures { OnOk result (text.new ≡ with_more_sets text.old sets.now) }
{
    for set in sets {
        text.push(b',')?;
        push_set(text, set)?;
    }
    Ok(())
}

#[tactic(auto, using(crate::proofs::PrintLaws::first_laws))]
fn push_sets(text: &mut Text, sets: &[(Name, Value)]) -> Result<(), OutOfMemory>
    ensures { OnOk result (text.new ≡ with_sets text.old sets.now) }
{
    let Some((first, rest)) = sets.split_first() else {
        return Ok(());
    };
    push_set(text, first)?;
    push_more_sets(text, rest)
}

// The looks of a fire, behind the word `look` where there are any.
#[tactic(auto, using(crate::proofs::PrintLaws::first_laws))]
fn push_looks(text: &mut Text, looks: &[Name]) -> Result<(), OutOfMemory>
    ensures { OnOk result (text.new ≡ with_looks text.old looks.now) }
{
    if looks.is_empty() {
        return Ok(());
    }
    push_word(text, b"look")?;
    push_names(text, looks)
}

fn push_call(text: &mut Text, call: &Call) -> Result<(), OutOfMemory>
    ensures { OnOk result (text.new ≡ with_call text.old call.now) }
{
    match call {
        Call::Fire { sets, looks } => {
            push_word(text, b"fire")?;
            push_sets(text, sets.as_slice())?;
            push_looks(text, looks.as_slice())?;
        }
        Call::Read { looks } => {
            push_word(text, b"read")?;
            push_names(text, looks.as_slice())?;
        }
    }
    text.push(b'\n')
}

// The line of a thread, and the lines of its calls.
#[tactic(auto, using(crate::proofs::PrintLaws::print_laws))]
fn push_thread(text: &mut Text, calls: &CallList) -> Result<(), OutOfMemory>
    ensures { OnOk result (text.new ≡ with_calls (with_word text.old (codes "thread") ++ 10 ∷ []) calls.now) }
{
    push_word(text, b"thread")?;
    text.push(b'\n')?;
    for call in calls.as_slice() {
        push_call(text, call)?;
    }
    Ok(())
}

#[tactic(auto, using(crate::proofs::PrintLaws::print_laws))]
fn push_threads(text: &mut Text, threads: &[CallList]) -> Result<(), OutOfMemory>
    ensures { OnOk result (text.new ≡ with_threads text.old threads.now) }
{
    for calls in threads {
        push_thread(text, calls)?;
    }
    Ok(())
}

// The names of candidates, each behind a comma.
#[tactic(auto, using(crate::proofs::PrintLaws::print_laws))]
fn push_more_candidates(
    text: &mut Text,
    graph: &Graph,
    candidates: &[u32],
) -> Result<(), OutOfMemory>
    requires { All (λ m. m < length graph.now.nodes) candidates.now }
    ensures { OnOk result (text.new ≡ with_more_names text.old (map (name_at graph.now) candidates.now)) }
{
    for candidate in candidates {
        text.push(b',')?;
        push_word(text, graph.name(*candidate).as_slice())?;
    }
    Ok(())
}

// The names of candidates, separated by commas.
#[tactic(auto, using(crate::proofs::PrintLaws::first_laws))]
fn push_candidates(text: &mut Text, graph: &Graph, candidates: &[u32]) -> Result<(), OutOfMemory>
    requires { All (λ m. m < length graph.now.nodes) candidates.now }
    ensures { OnOk result (text.new ≡ with_names text.old (map (name_at graph.now) candidates.now)) }
{
    let Some((first, rest)) = candidates.split_first() else {
        return Ok(());
    };
    push_word(text, graph.name(*first).as_slice())?;
    push_more_candidates(text, graph, rest)
}

// A script, `among` and the candidates.
fn push_selector(
    alloc: Global,
    text: &mut Text,
    graph: &Graph,
    selector: &Selector,
) -> Result<(), OutOfMemory>
    requires { All (λ m. m < length graph.now.nodes) selector.now.candidates }
    ensures { OnOk result (text.new ≡ with_selector graph.now text.old selector.now) }
{
    print_script_to(alloc, &selector.script, text)?;
    push_word(text, b"among")?;
    push_candidates(text, graph, selector.candidates.as_slice())
}

#[tactic(auto, using(crate::proofs::PrintLaws::print_laws))]
fn push_more_selectors(
    alloc: Global,
    text: &mut Text,
    graph: &Graph,
    selectors: &[Selector],
) -> Result<(), OutOfMemory>
    requires { All (λ s. All (λ m. m < length graph.now.nodes) s.candidates) selectors.now }
    ensures { OnOk result (text.new ≡ with_more_selectors graph.now text.old selectors.now) }
{
    for selector in selectors {
        text.push(b':')?;
        push_selector(alloc, text, graph, selector)?;
    }
    Ok(())
}

// Selectors, separated by colons.
#[tactic(auto, using(crate::proofs::PrintLaws::first_laws))]
fn push_selectors(
    alloc: Global,
    text: &mut Text,
    graph: &Graph,
    selectors: &[Selector],
) -> Result<(), OutOfMemory>
    requires { All (λ s. All (λ m. m < length graph.now.nodes) s.candidates) selectors.now }
    ensures { OnOk result (text.new ≡ with_selectors graph.now text.old selectors.now) }
{
    let Some((first, rest)) = selectors.split_first() else {
        return Ok(());
    };
    push_selector(alloc, text, graph, first)?;
    push_more_selectors(alloc, text, graph, rest)
}

fn push_body(alloc: Global, text: &mut Text, body: &Option<Script>) -> Result<(), OutOfMemory>
    ensures { OnOk result (text.new ≡ with_body text.old body.now) }
{
    match body {
        Some(body) => {
            text.push(b':')?;
            print_script_to(alloc, body, text)
        }
        None => Ok(()),
    }
}

fn push_source(text: &mut Text, name: &Name, start: Value) -> Result<(), OutOfMemory>
    ensures { OnOk result (text.new ≡ with_head text.old (codes "source") name.now ++ value_text start) }
{
    push_head(text, b"source", name)?;
    print_value(text, start)
}

fn push_signal(
    alloc: Global,
    text: &mut Text,
    name: &Name,
    script: &Script,
) -> Result<(), OutOfMemory>
    ensures { OnOk result (text.new ≡ with_head text.old (codes "signal") name.now ++ printed script.now) }
{
    push_head(text, b"signal", name)?;
    print_script_to(alloc, script, text)
}

fn push_fold(
    alloc: Global,
    text: &mut Text,
    name: &Name,
    start: Value,
    script: &Script,
) -> Result<(), OutOfMemory>
    ensures { OnOk result (text.new ≡ ((with_head text.old (codes "fold") name.now ++ value_text start) ++ 58 ∷ []) ++ printed script.now) }
{
    push_head(text, b"fold", name)?;
    print_value(text, start)?;
    text.push(b':')?;
    print_script_to(alloc, script, text)
}

fn push_choose(
    alloc: Global,
    text: &mut Text,
    graph: &Graph,
    name: &Name,
    selectors: &[Selector],
    body: &Option<Script>,
) -> Result<(), OutOfMemory>
    requires { All (λ s. All (λ m. m < length graph.now.nodes) s.candidates) selectors.now }
    ensures { OnOk result (text.new ≡ with_body (with_selectors graph.now (with_head text.old (codes "choose") name.now) selectors.now)
        body.now) }
{
    push_head(text, b"choose", name)?;
    push_selectors(alloc, text, graph, selectors)?;
    push_body(alloc, text, body)
}

fn push_declaration(
    alloc: Global,
    text: &mut Text,
    graph: &Graph,
    name: &Name,
    node: &Node,
) -> Result<(), OutOfMemory>
    requires { CandidatesBelow (length graph.now.nodes) node.now }
    ensures { OnOk result (text.new ≡ with_declaration graph.now text.old name.now node.now) }
{
    match node {
        Node::Source { start } => push_source(text, name, *start),
        Node::Signal { script, .. } => push_signal(alloc, text, name, script),
        Node::Fold { start, script, .. } => push_fold(alloc, text, name, *start, script),
        Node::Choose {
            selectors,
            body,
            ..
        } => { push_choose(alloc, text, graph, name, selectors.as_slice(), body) }
    }
}

// The line of a declaration.
fn push_node(
    alloc: Global,
    text: &mut Text,
    graph: &Graph,
    name: &Name,
    node: &Node,
) -> Result<(), OutOfMemory>
    requires { CandidatesBelow (length graph.now.nodes) node.now }
    ensures { OnOk result (text.new ≡ with_node graph.now text.old name.now node.now) }
{
    push_declaration(alloc, text, graph, name, node)?;
    text.push(b'\n')
}

#[tactic(auto, using(crate::proofs::PrintLaws::print_laws))]
fn push_nodes(alloc: Global, text: &mut Text, graph: &Graph) -> Result<(), OutOfMemory>
    ensures { OnOk result (text.new ≡ with_nodes graph.now text.old 0 graph.now.nodes) }
{
    for node in 0..graph.len() {
        push_node(alloc, text, graph, graph.name(node), graph.node(node))?;
    }
    Ok(())
}

/// The canonical text of a deck: its lines in their order, each with a line feed, scripts canonical, one space exactly
/// between two words that follow each other, and no other blanks. Where it is within the bytes of a deck it is read as
/// the same deck. A deck of the greatest length without a last line feed may print one byte beyond. Takes memory.
pub fn print_deck(alloc: Global, deck: &Deck) -> Result<Text, OutOfMemory>
    ensures text { IfOk result (λ text. text ≡ canonical deck.now) }
    ensures back { IfOk result (λ text. length text ≤ DECK_BYTES → SpellsDeck text deck.now) }
{
    canonical_line();
    written_value();
    let mut text = Text::new(alloc);
    push_nodes(alloc, &mut text, deck.graph())?;
    push_threads(&mut text, deck.scripts().as_slice())?;
    Ok(text)
}
