// Scripts and bodies where there is memory, the place of the first faulty word of a text that is none, and how a line is cut.

ghost use Rattle.std.specs.Prelude.{◌≤◌, length};

use expr_script::limits::LINE_BYTES;
use expr_script::pieces::{Piece, pieces};
use expr_script::{
    ScriptFault, Value, parse_body, parse_script, parse_script_bytes, parse_script_pieces,
    print_script,
};
use std::alloc::Global;
use std::test::Fail;

// Texts that are no script where `acc` is not allowed, and the place of the first faulty word.
const REFUSED: &[(&str, u32)] = &[
    ("", 0),
    (" \t", 2),
    ("(1", 2),
    ("a + + 1", 4),
    ("a < b < c", 6),
    ("a == b != c", 7),
    ("1a", 0),
    ("acc", 0),
    ("a + acc", 4),
    ("9223372036854775808", 0),
    ("99999999999999999999999", 0),
    ("abcdefghijklmnopqrstuvwxyz_123456", 0),
    ("a b", 2),
    ("a = b", 2),
    ("a & b", 2),
    ("a | b", 2),
    ("a ? b", 2),
    ("a === b", 4),
    ("a, b", 1),
    ("a)", 1),
    ("()", 1),
    ("* a", 0),
    ("a + if b then 1 else 2", 4),
    ("-if b then 1 else 2", 1),
    ("if a then b", 11),
    ("if a else b", 5),
    ("then", 0),
    ("among", 0),
    ("pick1", 0),
    ("a + source", 4),
    ("a + \u{e9}", 4),
    ("a \n", 2),
    ("a???b", 3),
    ("a<==b", 3),
];

// Where the first faulty word of a text is, if it is no script.
fn place_in_script(alloc: Global, text: &str) -> Option<u32> {
    if text.len() > LINE_BYTES {
        return None;
    }
    match parse_script(alloc, text, false) {
        Err(ScriptFault::Syntax(place)) => Some(place),
        _ => None,
    }
}

// The same of a body over one pick.
fn place_in_body(alloc: Global, text: &str) -> Option<u32> {
    if text.len() > LINE_BYTES {
        return None;
    }
    match parse_body(alloc, text, 1) {
        Err(ScriptFault::Syntax(place)) => Some(place),
        _ => None,
    }
}

#[test]
fn places_in_scripts(rt: HostRuntime) {
    for (text, place) in REFUSED {
        assert!(rt; place_in_script(rt.alloc(), text) == Some(*place), "{text}");
    }
}

#[test]
fn places_in_bodies(rt: HostRuntime) {
    assert!(rt; place_in_body(rt.alloc(), "pick1 + a") == Some(8));
    assert!(rt; place_in_body(rt.alloc(), "pick2") == Some(0));
    assert!(rt; place_in_body(rt.alloc(), "acc") == Some(0));
}

// Whether a script is printed in its canonical form.
fn is_printed(alloc: Global, text: &str, canonical: &[u8]) -> Result<bool, ScriptFault> {
    if text.len() > LINE_BYTES {
        return Ok(false);
    }
    let script = parse_script(alloc, text, true)?;
    Ok(print_script(alloc, &script)?.as_slice() == canonical)
}

// Where the first faulty word of bytes is, if they are no script.
fn place_in_bytes(alloc: Global, bytes: &[u8]) -> Option<u32> {
    if bytes.len() > LINE_BYTES {
        return None;
    }
    match parse_script_bytes(alloc, bytes, false) {
        Err(ScriptFault::Syntax(place)) => Some(place),
        _ => None,
    }
}

#[test]
fn scripts_and_a_body(rt: HostRuntime) -> Result<(), Fail> {
    assert!(rt; is_printed(rt.alloc(), "( acc )+007", b"acc+7")?);
    assert!(rt; place_in_bytes(rt.alloc(), b"a+\xff") == Some(2));
    let body = parse_body(rt.alloc(), "(pick1 ?? 7) - 2", 1)?;
    assert!(rt; body.eval_body(&[Value::Int(5)]) == Value::Int(3));
    Ok(())
}

// Where the first faulty word is, if the pieces of a text from one number up to another are no script.
fn place_in_part(alloc: Global, text: &[u8], from: usize, to: usize, acc: bool) -> Option<u32>
    requires { length text.now ≤ LINE_BYTES }
{
    let Ok(cut) = pieces(alloc, text) else {
        return None;
    };
    let found = cut.as_slice();
    let (until, _) = found.split_at(to.min(found.len()));
    let (_, part) = until.split_at(from.min(until.len()));
    match parse_script_pieces(alloc, text, part, acc) {
        Err(ScriptFault::Syntax(place)) => Some(place),
        _ => None,
    }
}

#[test]
fn places_in_a_part_of_a_line(rt: HostRuntime) {
    let line = b"f = 0 : acc + a , pick1";
    assert!(rt; place_in_part(rt.alloc(), line, 4, 7, true).is_none());
    assert!(rt; place_in_part(rt.alloc(), line, 4, 7, false) == Some(8));
    assert!(rt; place_in_part(rt.alloc(), line, 4, 6, true) == Some(23));
}

fn is_cut(alloc: Global, text: &[u8], places: &[Piece]) -> bool {
    match pieces(alloc, text) {
        Ok(found) => found.as_slice() == places,
        Err(_) => false,
    }
}

const PLACES: &[Piece] = &[
    Piece { from: 0, len: 1 },
    Piece { from: 1, len: 2 },
    Piece { from: 3, len: 1 },
    Piece { from: 5, len: 2 },
    Piece { from: 8, len: 1 },
];

const SIGNS: &[Piece] = &[Piece { from: 0, len: 2 }, Piece { from: 2, len: 1 }];

#[test]
fn pieces_of_a_line(rt: HostRuntime) {
    assert!(rt; is_cut(rt.alloc(), b"a<==\tb1 \xff", PLACES));
    assert!(rt; is_cut(rt.alloc(), b" \t", &[]));
    assert!(rt; is_cut(rt.alloc(), b"???", SIGNS));
}
