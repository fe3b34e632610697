// Reading a deck line by line.

ghost use Rattle.std.specs.Prelude.{◌≡◌, ◌+◌, ◌<◌, ◌≤◌, ◌^◌, ℕ, true, false, [], ◌∷◌, ◌++◌, length, Err, IfOk, IfErr, OnOk};
ghost use Rattle.signal_graph.specs.Declarations.{IsDeclaration};
ghost use Rattle.deck_lines.specs.Kept.{IsCall, IsKept};
ghost use Rattle.deck_text.specs.Faults.{NamesLine};
ghost use Rattle.deck_text.specs.Lines.{lines};
ghost use Rattle.deck_text.specs.Readers.{Reads, IsLed, deck_of};
ghost use Rattle.deck_text.specs.Refused.{NotDeclared, NotBegun, NotCalled, NotTaken, BeyondDeclaring, BeyondCalling, NotRead, IsReason};
ghost use Rattle.deck_text.specs.Reasons.{IsDeckFault};
ghost use Rattle.deck_text.specs.Spelled.{Adds, Extends, SpellsDeck, nothing_yet};
ghost use Rattle.deck_lines.specs.declared.line.Line.TheVariants as said;
ghost use Rattle.deck_text.specs.declared.fault.DeckFault.TheVariants as fault;

use crate::deck::Deck;
use crate::fault::{DeckFault, What};
use crate::lines::first_line;
use crate::reason::Reason;
use deck_lines::laws::{one_answer, one_form, one_line};
use deck_lines::{Limit, Line, LineFault, read_line};
use script_tree::items::Items;
use script_tree::limits::{DECK_BYTES, LINE_BYTES, NODES, THREADS};
use script_tree::memory::OutOfMemory;
use script_tree::name::Name;
use signal_graph::builder::{DeclKind, GraphBuilder};
use signal_graph::call::{Call, CallList};
use std::alloc::Global;
use std::mem;

/// What the lines so far declare and call.
#[derive(Drop)]
pub struct Reader {
    alloc: Global,
    builder: GraphBuilder,
    // The threads before the newest one.
    threads: Vec<CallList>,
    // Whether a thread is begun.
    begun: bool,
    // The calls of the newest thread.
    calls: Vec<Call>,
}

// The calls of a thread that has all of them. The room for more is given back.
fn whole_thread(calls: Vec<Call>) -> CallList
    ensures { result ≡ calls.items }
{
    let mut calls = calls;
    calls.shrink_to_fit();
    Items::from_vec(calls)
}

impl Reader {
    fn new(alloc: Global) -> Reader
        ensures reads { Reads result }
        ensures empty { result.calls.items ≡ [] }
        ensures nothing { deck_of result ≡ nothing_yet }
    {
        Reader {
            alloc,
            builder: GraphBuilder::new(alloc),
            threads: Vec::new(alloc),
            begun: false,
            calls: Vec::new(alloc),
        }
    }

    // Why a declaration is refused that goes beyond this limit. In the wrong part it is none, and the limit of nodes comes
    // before its own.
    fn refused_declaration(&self, limit: Limit) -> Reason
        ensures { BeyondDeclaring self.now limit result }
    {
        if self.begun {
            return Reason::Syntax;
        }
        if self.builder.len() >= NODES {
            return Reason::TooMany(What::Nodes);
        }
        Reason::beyond(limit)
    }

    // Why a call is refused that goes beyond this limit.
    fn refused_call(&self, limit: Limit) -> Reason
        ensures { BeyondCalling self.now limit result }
    {
        if !self.begun {
            return Reason::Syntax;
        }
        Reason::beyond(limit)
    }

    // Why a line is refused that is none, or that goes beyond a limit of its own: the limit tells what it is.
    fn refused(&self, fault: LineFault) -> Reason
        ensures { NotRead self.now fault result }
    {
        match fault {
            LineFault::Syntax => Reason::Syntax,
            LineFault::TooMany(limit) => match limit {
                Limit::Sets | Limit::Looks => self.refused_call(limit),
                _ => self.refused_declaration(limit),
            },
            LineFault::Memory => Reason::Memory,
        }
    }

    fn add_declaration(&mut self, name: Name, kind: DeclKind) -> Result<(), Reason>
        requires reads { Reads self.old }
        requires declaration { IsDeclaration kind }
        ensures reads { Reads self.new }
        ensures calls { self.new.calls ≡ self.old.calls }
        ensures adds { OnOk result (Adds (said.Declares name kind) (deck_of self.old) (deck_of self.new)) }
        ensures refuses { IfErr result (NotDeclared (deck_of self.old) name kind) }
    {
        if self.begun {
            return Err(Reason::Syntax);
        }
        match self.builder.add(name, kind) {
            Ok(_) => Ok(()),
            Err(fault) => Err(Reason::from(fault)),
        }
    }

    // Begins a thread behind another one.
    fn next_thread(&mut self) -> Result<(), Reason>
        requires reads { Reads self.old }
        requires begun { self.old.begun ≡ true }
        requires counted { length self.old.calls.items < 2 ^ 32 }
        ensures reads { OnOk result (Reads self.new) }
        ensures calls { OnOk result (length self.new.calls.items ≤ length self.old.calls.items) }
        ensures adds { OnOk result (Adds said.Thread (deck_of self.old) (deck_of self.new)) }
        ensures refuses { IfErr result (NotBegun (deck_of self.old)) }
    {
        if self.threads.len() + 1 >= THREADS as usize {
            return Err(Reason::TooMany(What::Threads));
        }
        let calls = mem::replace(&mut self.calls, Vec::new(self.alloc));
        self.threads.push(whole_thread(calls))?;
        Ok(())
    }

    fn begin_thread(&mut self) -> Result<(), Reason>
        requires reads { Reads self.old }
        requires counted { length self.old.calls.items < 2 ^ 32 }
        ensures reads { OnOk result (Reads self.new) }
        ensures calls { OnOk result (length self.new.calls.items ≤ length self.old.calls.items) }
        ensures adds { OnOk result (Adds said.Thread (deck_of self.old) (deck_of self.new)) }
        ensures refuses { IfErr result (NotBegun (deck_of self.old)) }
    {
        if self.begun {
            return self.next_thread();
        }
        self.begun = true;
        Ok(())
    }

    fn add_call(&mut self, call: Call) -> Result<(), Reason>
        requires reads { Reads self.old }
        requires call { IsCall call }
        ensures reads { OnOk result (Reads self.new) }
        ensures calls { OnOk result (length self.new.calls.items ≤ length self.old.calls.items + 1) }
        ensures adds { OnOk result (Adds (said.Calls call) (deck_of self.old) (deck_of self.new)) }
        ensures refuses { IfErr result (NotCalled (deck_of self.old)) }
    {
        if !self.begun {
            return Err(Reason::Syntax);
        }
        self.calls.push(call)?;
        Ok(())
    }

    // Takes what a line says.
    fn take(&mut self, line: Line) -> Result<(), Reason>
        requires reads { Reads self.old }
        requires counted { length self.old.calls.items < 2 ^ 32 }
        requires kept { IsKept line }
        ensures reads { OnOk result (Reads self.new) }
        ensures calls { OnOk result (length self.new.calls.items ≤ length self.old.calls.items + 1) }
        ensures adds { OnOk result (Adds line (deck_of self.old) (deck_of self.new)) }
        ensures refuses { IfErr result (NotTaken line (deck_of self.old)) }
    {
        match line {
            Line::Nothing => Ok(()),
            Line::Declares(name, kind) => self.add_declaration(name, kind),
            Line::Thread => self.begin_thread(),
            Line::Calls(call) => self.add_call(call),
        }
    }

    // Reads a line.
    fn read(&mut self, line: &[u8]) -> Result<(), Reason>
        requires reads { Reads self.old }
        requires counted { length self.old.calls.items < 2 ^ 32 }
        ensures reads { OnOk result (Reads self.new) }
        ensures calls { OnOk result (length self.new.calls.items ≤ length self.old.calls.items + 1) }
        ensures extends { OnOk result (Extends line.now (deck_of self.old) (deck_of self.new)) }
        ensures refuses { (end : ℕ) → end ≤ DECK_BYTES
            → IfErr result (IsReason (record { deck = deck_of self.old; end = end; line = line.now })) }
    {
        one_form();
        one_answer();
        one_line();
        if line.len() > LINE_BYTES {
            return Err(Reason::LineTooLong);
        }
        match read_line(self.alloc, line) {
            Ok(said) => self.take(said),
            Err(fault) => Err(self.refused(fault)),
        }
    }

    // The deck of all lines, of which one begins a thread.
    fn deck(self) -> Result<Deck, OutOfMemory>
        requires reads { Reads self }
        requires led { IsLed (deck_of self) }
        requires begun { self.begun ≡ true }
        requires counted { length self.calls.items < 2 ^ 32 }
        ensures graph { IfOk result (λ deck. deck.graph ≡ self.builder) }
        ensures scripts { IfOk result (λ deck. deck.scripts ≡ self.threads.items ++ self.calls.items ∷ []) }
    {
        let Reader {
            alloc: _,
            builder,
            threads,
            begun: _,
            calls,
        } = self;
        let mut threads = threads;
        threads.push(whole_thread(calls))?;
        let graph = builder.build()?;
        Ok(Deck::new(graph, Items::from_vec(threads)))
    }

    fn finish(self) -> Result<Deck, DeckFault>
        requires reads { Reads self }
        requires led { IsLed (deck_of self) }
        requires counted { length self.calls.items < 2 ^ 32 }
        ensures names { (n : ℕ) → IfErr result (NamesLine n) }
        ensures ok { IfOk result (λ deck. deck ≡ deck_of self) }
        ensures some { IfOk result (λ deck. 1 ≤ length deck.scripts) }
        ensures none { result ≡ Err fault.NoThread → self.begun ≡ false }
    {
        if !self.begun {
            return Err(DeckFault::NoThread);
        }
        match self.deck() {
            Ok(deck) => Ok(deck),
            Err(_) => Err(DeckFault::Memory),
        }
    }
}

/// The deck that bytes spell. A deck is lines, each of which says nothing, declares a node, begins a thread, or is a
/// call of the newest thread; declarations stand before the first thread. The first faulty line is answered with the
/// first of its reasons, in this order: it holds the byte number 16,777,217; it has more than 4,096 bytes; it has none
/// of the forms; it goes beyond a limit, in the order of `What`; its name is declared before; it uses a name that is
/// not declared before. `NoThread` comes where no line is faulty and none begins a thread. Names in calls are not
/// looked up. Takes memory; `Memory` comes only for want of it, at whichever line there is none.
#[tactic(auto, using(crate::proofs::Spelling::led_laws))]
pub fn read_deck(alloc: Global, bytes: &[u8]) -> Result<Deck, DeckFault>
    ensures ok { IfOk result (SpellsDeck bytes.now) }
    ensures err { IfErr result (IsDeckFault bytes.now) }
    ensures names { IfErr result (NamesLine (length (lines bytes.now))) }
{
    let mut reader = Reader::new(alloc);
    let mut rest = bytes;
    let mut number: u32 = 0;
    while !rest.is_empty() {
        let (line, after) = first_line(rest);
        number += 1;
        let end = (bytes.len() - after.len()) as u64;
        if end > DECK_BYTES {
            return Err(DeckFault::TooMany(number, What::Bytes));
        }
        if let Err(reason) = reader.read(line) {
            return Err(reason.at(number));
        }
        rest = after;
    }
    reader.finish()
}
