// The lines of a report, each read from the front of a text.

ghost use Rattle.std.specs.Prelude.{◌≡◌, ◌≢◌, ℕ, List, ◌++◌, ◌∷◌, ◌<◌, ◌≤◌, ◌^◌, [], length, IfOk, IfErr, IfSome, IfNone, OnOk, codes};
ghost use Rattle.std.specs.List.{zip};
ghost use Rattle.report_text.specs.Pieces.{Ends};
ghost use Rattle.report_text.specs.Printed.{IsLook, AreLooks, IsReply, IsLine, IsWhy, IsRefusal, NoCall, NoRefusal, NoFinal, NoDone};
ghost use Rattle.report_text.specs.Report.{named_value, more_looks, looks_text, fire_looks, fire_text, reply_text};
ghost use Rattle.report_text.specs.Report.{call_line, why_text, refused_line, final_line, done_line};

use crate::data::CallLine;
use crate::pieces::{behind, count, counts, named};
use script_tree::items::Items;
use script_tree::memory::OutOfMemory;
use script_tree::name::{Name, NameList};
use script_tree::value::Value;
use signal_graph::call::{Reply, ValueList};
use signal_graph::log::{Refused, Why};
use std::alloc::Global;

/// Why a line was not read: its text has not the form, or there was no memory.
#[derive(Clone, Copy, PartialEq, Eq, Debug)]
pub enum Stop {
    Syntax,
    Memory,
}

impl From<OutOfMemory> for Stop {
    ghost use Rattle.std.specs.Prelude.{◌≡◌};
    ghost use Rattle.report_text.specs.declared.entries.Stop.TheVariants.{Memory};

    ghost from_gives = { λ _ e. e ≡ Memory };

    fn from(_: OutOfMemory) -> Stop {
        Stop::Memory
    }
}

// Looks: their names, and a value for each.
#[derive(Drop)]
struct Looks {
    names: NameList,
    values: ValueList,
}

impl Looks {
    fn new(alloc: Global) -> Looks
        ensures { (result.names ≡ []) × (result.values ≡ []) }
    {
        Looks {
            names: Items::new(alloc),
            values: Items::new(alloc),
        }
    }

    // Adds a look at the end.
    fn add(&mut self, name: Name, value: Value) -> Result<(), OutOfMemory>
        ensures names { OnOk result (self.new.names ≡ self.old.names ++ name ∷ []) }
        ensures values { OnOk result (self.new.values ≡ self.old.values ++ value ∷ []) }
    {
        self.names.push(name)?;
        self.values.push(value)?;
        Ok(())
    }
}

// A look behind a comma and a space, and what stands behind it.
fn next_look(text: &[u8]) -> Option<(Name, Value, &[u8])>
    ensures text { IfSome result (λ p. (text.now ≡ codes ", " ++ (named_value (p.0, p.1) ++ p.2.now)) × IsLook (p.0, p.1) × Ends p.2.now) }
    ensures none { IfNone result ((look : List ℕ × Value) (rest : List ℕ) → IsLook look → Ends rest
        → text.now ≢ codes ", " ++ (named_value look ++ rest)) }
    ensures shorter { IfSome result (λ p. length p.2.now < length text.now) }
{
    let Some(rest) = behind(text, b", ") else {
        return None;
    };
    let Some((name, value, rest)) = named(rest) else {
        return None;
    };
    Some((name, value, rest))
}

// Reads on behind the first look as far as looks go, and gives what stands behind them.
fn more_looks<'a>(text: &'a [u8], looks: &mut Looks) -> Result<&'a [u8], OutOfMemory>
    requires some { 0 < length looks.old.names }
    requires each { length looks.old.values ≡ length looks.old.names }
    ensures text { IfOk result (λ rest. looks_text (zip looks.old.names looks.old.values) ++ text.now
        ≡ looks_text (zip looks.new.names looks.new.values) ++ rest.now) }
    ensures some { IfOk result (λ rest. 0 < length looks.new.names) }
    ensures each { IfOk result (λ rest. length looks.new.values ≡ length looks.new.names) }
    ensures looks { IfOk result (λ rest. AreLooks (zip looks.old.names looks.old.values)
        → AreLooks (zip looks.new.names looks.new.values)) }
    ensures all { IfOk result (λ rest. (more : List (List ℕ × Value)) (after : List ℕ) → AreLooks more
        → text.now ≡ more_looks more ++ 10 ∷ after → rest.now ≡ 10 ∷ after) }
{
    let mut rest = text;
    while !rest.is_empty() {
        match next_look(rest) {
            Some((name, value, after)) => {
                looks.add(name, value)?;
                rest = after;
            }
            None => return Ok(rest),
        }
    }
    Ok(rest)
}

// Reads looks as far as they go, and gives what stands behind them.
fn read_looks<'a>(text: &'a [u8], looks: &mut Looks) -> Result<&'a [u8], OutOfMemory>
    requires { (looks.old.names ≡ []) × (looks.old.values ≡ []) }
    ensures text { IfOk result (λ rest. text.now ≡ looks_text (zip looks.new.names looks.new.values) ++ rest.now) }
    ensures each { IfOk result (λ rest. length looks.new.values ≡ length looks.new.names) }
    ensures looks { IfOk result (λ rest. AreLooks (zip looks.new.names looks.new.values)) }
    ensures all { IfOk result (λ rest. (them : List (List ℕ × Value)) (after : List ℕ) → AreLooks them
        → text.now ≡ looks_text them ++ 10 ∷ after → rest.now ≡ 10 ∷ after) }
    ensures some { IfOk result (λ rest. (them : List (List ℕ × Value)) (after : List ℕ) → AreLooks them → them ≢ []
        → text.now ≡ looks_text them ++ 10 ∷ after → looks.new.names ≢ []) }
{
    match named(text) {
        Some((name, value, rest)) => {
            looks.add(name, value)?;
            more_looks(rest, looks)
        }
        None => Ok(text),
    }
}

// Reads what a fire looked at, if it looked at anything.
fn read_fire_looks<'a>(text: &'a [u8], looks: &mut Looks) -> Result<&'a [u8], Stop>
    requires { (looks.old.names ≡ []) × (looks.old.values ≡ []) }
    ensures text { IfOk result (λ rest. text.now ≡ fire_looks (zip looks.new.names looks.new.values) ++ rest.now) }
    ensures each { IfOk result (λ rest. length looks.new.values ≡ length looks.new.names) }
    ensures looks { IfOk result (λ rest. AreLooks (zip looks.new.names looks.new.values)) }
    ensures all { IfOk result (λ rest. (them : List (List ℕ × Value)) (after : List ℕ) → AreLooks them
        → text.now ≡ fire_looks them ++ 10 ∷ after → rest.now ≡ 10 ∷ after) }
    ensures none { IfErr result (λ stop. stop ≡ Stop.Syntax → (them : List (List ℕ × Value)) (after : List ℕ) → AreLooks them
        → text.now ≢ fire_looks them ++ 10 ∷ after) }
{
    let Some(rest) = behind(text, b" look ") else {
        return Ok(text);
    };
    let rest = read_looks(rest, looks)?;
    if looks.names.is_empty() {
        return Err(Stop::Syntax);
    }
    Ok(rest)
}

// The reply of a fire with the names of its looks, and what stands behind it.
fn fire(alloc: Global, text: &[u8]) -> Result<(Reply, NameList, &[u8]), Stop>
    ensures text { IfOk result (λ p. text.now ≡ reply_text p.1 p.0 ++ p.2.now) }
    ensures reply { IfOk result (λ p. IsReply p.1 p.0) }
    ensures all { IfOk result (λ p. (a b : ℕ) (them : List (List ℕ × Value)) (after : List ℕ) → a < 2 ^ 32 → b < 2 ^ 32 → AreLooks them
        → text.now ≡ fire_text a b them ++ 10 ∷ after → p.2.now ≡ 10 ∷ after) }
    ensures none { IfErr result (λ stop. stop ≡ Stop.Syntax → (a b : ℕ) (them : List (List ℕ × Value)) (after : List ℕ) → a < 2 ^ 32
        → b < 2 ^ 32 → AreLooks them
        → text.now ≢ fire_text a b them ++ 10 ∷ after) }
{
    let Some((changed, evaluated, rest)) = counts(text, b" fire changed ", b" evaluated ") else {
        return Err(Stop::Syntax);
    };
    let mut looks = Looks::new(alloc);
    let rest = match read_fire_looks(rest, &mut looks) {
        Ok(rest) => rest,
        Err(stop) => return Err(stop),
    };
    let Looks { names, values } = looks;
    let reply = Reply::Fire {
        changed,
        evaluated,
        looks: values,
    };
    Ok((reply, names, rest))
}

// The reply of a read with the names of its looks, where a text is what stands behind its word, and what stands behind.
fn read(alloc: Global, text: &[u8]) -> Result<(Reply, NameList, &[u8]), Stop>
    ensures text { IfOk result (λ p. codes " read " ++ text.now ≡ reply_text p.1 p.0 ++ p.2.now) }
    ensures reply { IfOk result (λ p. IsReply p.1 p.0) }
    ensures all { IfOk result (λ p. (them : List (List ℕ × Value)) (after : List ℕ) → AreLooks them
        → text.now ≡ looks_text them ++ 10 ∷ after → p.2.now ≡ 10 ∷ after) }
    ensures err { IfErr result (λ stop. stop ≡ Stop.Memory) }
{
    let mut looks = Looks::new(alloc);
    let rest = read_looks(text, &mut looks)?;
    let Looks { names, values } = looks;
    Ok((Reply::Read { looks: values }, names, rest))
}

// A reply with the names of its looks, and what stands behind it.
fn reply(alloc: Global, text: &[u8]) -> Result<(Reply, NameList, &[u8]), Stop>
    ensures text { IfOk result (λ p. text.now ≡ reply_text p.1 p.0 ++ p.2.now) }
    ensures reply { IfOk result (λ p. IsReply p.1 p.0) }
    ensures all { IfOk result (λ p. (names : List (List ℕ)) (it : Reply) (after : List ℕ) → IsReply names it
        → text.now ≡ reply_text names it ++ 10 ∷ after → p.2.now ≡ 10 ∷ after) }
    ensures none { IfErr result (λ stop. stop ≡ Stop.Syntax → (names : List (List ℕ)) (it : Reply) (after : List ℕ) → IsReply names it
        → text.now ≢ reply_text names it ++ 10 ∷ after) }
{
    match behind(text, b" read ") {
        Some(rest) => read(alloc, rest),
        None => fire(alloc, text),
    }
}

/// The line of a call that was made, and what stands behind it. Takes memory.
pub fn call(alloc: Global, text: &[u8]) -> Result<(CallLine, &[u8]), Stop>
    ensures text { IfOk result (λ p. text.now ≡ call_line p.0 ++ p.1.now) }
    ensures line { IfOk result (λ p. IsLine p.0) }
    ensures none { IfErr result (λ stop. stop ≡ Stop.Syntax → NoCall text.now) }
    ensures shorter { IfOk result (λ p. length p.1.now < length text.now) }
{
    let Some((version, caller, rest)) = counts(text, b"call ", b" thread ") else {
        return Err(Stop::Syntax);
    };
    match reply(alloc, rest) {
        Ok((reply, names, rest)) => match behind(rest, b"\n") {
            Some(rest) => {
                let line = CallLine {
                    version,
                    caller,
                    reply,
                    names,
                };
                Ok((line, rest))
            }
            None => Err(Stop::Syntax),
        },
        Err(stop) => Err(stop),
    }
}

// Why a call was not made, and what stands behind that.
fn why(text: &[u8]) -> Option<(Why, &[u8])>
    ensures some { IfSome result (λ p. (text.now ≡ why_text p.0 ++ p.1.now) × IsWhy p.0 × Ends p.1.now) }
    ensures none { IfNone result ((why : Why) (rest : List ℕ) → IsWhy why → Ends rest → text.now ≢ why_text why ++ rest) }
{
    if let Some((place, rest)) = count(text, b" unknown name ") {
        return Some((Why::UnknownName(place), rest));
    }
    let Some((limit, rest)) = count(text, b" versions used up ") else {
        return None;
    };
    Some((Why::VersionsUsedUp(limit), rest))
}

/// The line of a call that was not made, and what stands behind it.
pub fn refusal(text: &[u8]) -> Option<(Refused, &[u8])>
    ensures text { IfSome result (λ p. text.now ≡ refused_line p.0 ++ p.1.now) }
    ensures data { IfSome result (λ p. IsRefusal p.0) }
    ensures none { IfNone result (NoRefusal text.now) }
    ensures shorter { IfSome result (λ p. length p.1.now < length text.now) }
{
    let Some((caller, number, rest)) = counts(text, b"refused thread ", b" call ") else {
        return None;
    };
    let Some((why, rest)) = why(rest) else {
        return None;
    };
    let Some(rest) = behind(rest, b"\n") else {
        return None;
    };
    let refused = Refused {
        caller,
        number,
        why,
    };
    Some((refused, rest))
}

/// The line of a node's last value, and what stands behind it.
pub fn last(text: &[u8]) -> Option<(Name, Value, &[u8])>
    ensures text { IfSome result (λ p. text.now ≡ final_line (p.0, p.1) ++ p.2.now) }
    ensures data { IfSome result (λ p. IsLook (p.0, p.1)) }
    ensures none { IfNone result (NoFinal text.now) }
    ensures shorter { IfSome result (λ p. length p.2.now < length text.now) }
{
    let Some(rest) = behind(text, b"final ") else {
        return None;
    };
    let Some((name, value, rest)) = named(rest) else {
        return None;
    };
    let Some(rest) = behind(rest, b"\n") else {
        return None;
    };
    Some((name, value, rest))
}

/// The two counts of the last line, and what stands behind it.
pub fn done(text: &[u8]) -> Option<(u32, u32, &[u8])>
    ensures text { IfSome result (λ p. text.now ≡ done_line p.0 p.1 ++ p.2.now) }
    ensures none { IfNone result (NoDone text.now) }
    ensures shorter { IfSome result (λ p. length p.2.now < length text.now) }
{
    let Some((accepted, refused, rest)) = counts(text, b"done ", b" accepted ") else {
        return None;
    };
    let Some(rest) = behind(rest, b" refused\n") else {
        return None;
    };
    Some((accepted, refused, rest))
}
