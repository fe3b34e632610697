// Reading and writing a whole text.

ghost use Rattle.std.specs.Prelude.{◌≡◌, ℕ, List, ◌+◌, ◌<◌, ◌≤◌, ◌++◌, length, IsTrue, IfOk, OnOk, Ok, Err, IsErrOf, vec_len};
ghost use Rattle.std.specs.Bool.{OnTrue, OnFalse};
ghost use Rattle.std.specs.Io.KnownBytes.{IsAtEnd, Consumes};
ghost use Rattle.fs_io.specs.Bytes.{Adds, AddsFirst, Ends, GivesFirst, LosesFront, Moves};
ghost use Rattle.fs_io.specs.Count.{Rose};

use crate::fault::ReadFault;
use crate::sink::Sink;
use crate::source::Source;
use script_tree::items::Text;
use std::alloc::{AllocError, Global};

/// How many bytes one read of a whole text asks for at most.
const PIECE: usize = 65536;

// So many bytes of room.
fn make_room(alloc: Global, len: usize) -> Result<Vec<u8>, AllocError>
    ensures { IfOk result (λ room. vec_len room ≡ len) }
{
    vec![in alloc; 0u8; len]
}

// Reads once into a piece, and adds what came to the text. Answers how many bytes came.
fn read_piece<S: Source>(
    source: &mut S,
    piece: &mut [u8],
    text: &mut Text,
) -> Result<usize, ReadFault>
    ensures within { IfOk result (λ n. n ≤ length piece.new) }
    ensures moved { IfOk result (Moves (S.state source.old).left (S.state source.new).left text.old text.new) }
    ensures end { IfOk result (λ n. n ≡ 0 → 0 < length piece.new → IsAtEnd (S.state source.old).left) }
    ensures failed { IsErrOf result ReadFault.Source → Rose (S.state source.old).faults (S.state source.new).faults }
    ensures memory { IsErrOf result ReadFault.Memory → LosesFront (S.state source.old).left (S.state source.new).left }
    ensures never_falls { (S.state source.old).faults ≤ (S.state source.new).faults }
    ensures once { S.reads source.new ≤ S.reads source.old + 1 }
{
    match source.read(piece) {
        Ok(n) => {
            text.extend_from_slice(&piece[..n])?;
            Ok(n)
        }
        Err(_) => Err(ReadFault::Source),
    }
}

/// Reads all bytes to the end of input, or the first `most + 1` of them. Takes memory.
/// It reads in large pieces, at most `most + 1` times.
///
/// Where the source tells what it has left, the text is the first `most + 1` bytes of that, and the others are left.
/// A text of at most `most` bytes is the whole input.
/// `Source`: a read failed, so the count of faults rose. `Memory`: some bytes were taken from the source and are lost.
pub fn read_all<S: Source>(alloc: Global, source: &mut S, most: u64) -> Result<Text, ReadFault>
    ensures ok { IfOk result (GivesFirst (most + 1) (S.state source.old).left (S.state source.new).left) }
    ensures within { IfOk result (λ text. length text ≤ most + 1) }
    ensures end { IfOk result (λ text. length text ≤ most → Ends (S.state source.old).left (S.state source.new).left) }
    ensures failed { IsErrOf result ReadFault.Source → Rose (S.state source.old).faults (S.state source.new).faults }
    ensures memory { IsErrOf result ReadFault.Memory → LosesFront (S.state source.old).left (S.state source.new).left }
    ensures never_falls { (S.state source.old).faults ≤ (S.state source.new).faults }
    ensures reads { S.reads source.new ≤ S.reads source.old + (most + 1) }
{
    let mut piece = make_room(alloc, PIECE)?;
    let mut text = Text::new(alloc);
    while text.len() as u64 <= most {
        let more = (most - text.len() as u64).min(PIECE as u64 - 1) as usize + 1;
        if read_piece(source, &mut piece[..more], &mut text)? == 0 {
            return Ok(text);
        }
    }
    Ok(text)
}

/// Writes all bytes and flushes the sink, and answers whether that went well. Takes no memory.
/// True: the sink took all bytes and is clean. False: a write or the flush failed, so the count of faults rose,
/// and the sink took the first few of the bytes, or all of them.
pub fn write_all<O: Sink>(sink: &mut O, bytes: &[u8]) -> bool
    ensures all { OnTrue result (Adds (O.state sink.old).held (O.state sink.new).held bytes.now) }
    ensures clean { OnTrue result (IsTrue (O.state sink.new).clean) }
    ensures front { AddsFirst (O.state sink.old).held (O.state sink.new).held bytes.now }
    ensures failed { OnFalse result (Rose (O.state sink.old).faults (O.state sink.new).faults) }
    ensures never_falls { (O.state sink.old).faults ≤ (O.state sink.new).faults }
{
    let mut rest = bytes;
    while !rest.is_empty() {
        match sink.write(rest) {
            Ok(n) => rest = &rest[n..],
            Err(_) => return false,
        }
    }
    sink.flush().is_ok()
}
