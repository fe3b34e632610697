// Whole runs over decks, from words and bytes to bytes and a status, over sources and sinks in memory.

use framesweep_cli::framesweep;
use fs_io::mem_sink::MemSink;
use fs_io::mem_source::MemSource;
use fs_io::sure_sink::SureSink;
use fs_io::sure_source::SureSource;
use script_tree::items::Text;
use script_tree::memory::OutOfMemory;
use std::alloc::Global;
use std::sync::Wait;
use std::test::Fail;
use std::thread::Threads;
use worker_gate::OpenGate;

const ROOM: usize = 4096;

const DECK: &[u8] = b"source a = 1\nsignal b = a + 1\nthread\nfire a=5 look b\nread a, b\n";

const REPORT: &[u8] = b"call 1 thread 1 fire changed 2 evaluated 1 look b=6
call 2 thread 1 read a=5, b=6
final a=5
final b=6
done 2 accepted 0 refused
";

fn run_words(alloc: Global) -> Result<Vec<Text>, OutOfMemory> {
    let mut words = Vec::new(alloc);
    words.push(Text::from_slice(alloc, b"run")?)?;
    Ok(words)
}

#[test]
fn a_run_in_pieces_of_seven_bytes(rt: HostRuntime) -> Result<(), Fail> {
    let alloc = rt.alloc();
    let words = run_words(alloc)?;
    let mut source = SureSource::new(alloc, DECK, 7)?;
    let mut out = SureSink::new(alloc, ROOM, 7)?;
    let mut err = SureSink::new(alloc, ROOM, 7)?;
    let status = framesweep(
        &rt,
        alloc,
        &words,
        &mut source,
        &mut out,
        &mut err,
        &OpenGate,
    );
    assert!(rt; status == 0 && out.kept() == REPORT && err.kept().is_empty());
    Ok(())
}

// Whether a run whose second write fails ends with the first four bytes.
fn is_cut_behind_a_write<R: Threads + Wait + Sync>(
    rt: &R,
    alloc: Global,
    words: &[Text],
) -> Result<bool, OutOfMemory> {
    let mut source = MemSource::new(alloc, DECK, 10, &[])?;
    let mut out = MemSink::new(alloc, ROOM, 4, &[2])?;
    let mut err = MemSink::new(alloc, ROOM, 7, &[])?;
    let status = framesweep(rt, alloc, words, &mut source, &mut out, &mut err, &OpenGate);
    Ok(status == 4 && out.held() == b"call".as_slice() && out.faults() == 1)
}

// Whether a run whose third read fails writes nothing and leaves what is behind twenty bytes.
fn is_cut_behind_a_read<R: Threads + Wait + Sync>(
    rt: &R,
    alloc: Global,
    words: &[Text],
) -> Result<bool, OutOfMemory> {
    let mut source = MemSource::new(alloc, DECK, 10, &[3])?;
    let mut out = MemSink::new(alloc, ROOM, 7, &[])?;
    let mut err = MemSink::new(alloc, ROOM, 7, &[])?;
    let status = framesweep(rt, alloc, words, &mut source, &mut out, &mut err, &OpenGate);
    Ok(status == 3 && out.held().is_empty() && source.left().len() == DECK.len() - 20)
}

#[test]
fn faults_at_a_call(rt: HostRuntime) -> Result<(), Fail> {
    let words = run_words(rt.alloc())?;
    assert!(rt; is_cut_behind_a_write(&rt, rt.alloc(), &words)?);
    assert!(rt; is_cut_behind_a_read(&rt, rt.alloc(), &words)?);
    Ok(())
}
