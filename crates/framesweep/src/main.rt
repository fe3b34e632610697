//! Runs decks: standard input, output and error, and the words behind the program's name, for the command line.
#![tactic(auto)]

use framesweep_cli::{MEMORY_LINE, framesweep};
use fs_io::adapters::{ReadSource, WriteSink};
use fs_io::whole::write_all;
use script_tree::items::Text;
use script_tree::memory::OutOfMemory;
use std::process::ExitCode;
use std::rt::Env;
use std::{env, io};
use worker_gate::OpenGate;

/// The status where there is no memory.
const NO_MEMORY: u8 = 5;

// The words behind the program's name. A word that isn't UTF-8 can't be had: in its place stands a byte that isn't
// either, which is refused as such a word is.
fn words<R: Env + AllocGlobal>(rt: &R) -> Result<Vec<Text>, OutOfMemory> {
    let mut words = Vec::new(rt.alloc());
    let args = match env::args(rt) {
        Ok(args) => args,
        Err(error) if error.kind() == io::ErrorKind::InvalidData => {
            words.push(Text::from_slice(rt.alloc(), b"\xff")?)?;
            return Ok(words);
        }
        Err(_) => return Err(OutOfMemory),
    };
    for word in args.skip(1) {
        words.push(Text::from_slice(rt.alloc(), word.as_bytes())?)?;
    }
    Ok(words)
}

fn main(rt: HostRuntime) -> ExitCode {
    let mut err = WriteSink::new(rt.stderr());
    let words = match words(&rt) {
        Ok(words) => words,
        Err(_) => {
            let _ = write_all(&mut err, MEMORY_LINE);
            return ExitCode::from(NO_MEMORY);
        }
    };
    let mut source = ReadSource::new(rt.stdin());
    let mut out = WriteSink::new(rt.stdout());
    let status = framesweep(
        &rt,
        rt.alloc(),
        &words,
        &mut source,
        &mut out,
        &mut err,
        &OpenGate,
    );
    ExitCode::from(status)
}
