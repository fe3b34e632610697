// A writer of std whose flush fails, or that takes nothing.

ghost use Rattle.std.specs.Prelude.{◌≤◌, IfOk};

use fs_io::adapters::WriteSink;
use fs_io::sink::Sink;
use std::io;
use std::io::Write;
use std::test::Fail;

// A writer whose first flush fails, and which takes nothing.
#[derive(Drop)]
struct Faltering {
    flushed: bool,
}

impl Write for Faltering {
    fn write(&mut self, buf: &[u8]) -> io::Result<usize> {
        Ok(0)
    }

    fn flush(&mut self) -> io::Result<()> {
        if self.flushed {
            return Ok(());
        }
        self.flushed = true;
        Err(io::Error::from(io::ErrorKind::BrokenPipe))
    }
}

#[test]
fn an_error_of_a_flush_and_a_write_of_nothing_are_faults(rt: HostRuntime) {
    let mut sink = WriteSink::new(Faltering { flushed: false });
    assert!(rt; sink.flush().is_err() && sink.faults() == 1);
    assert!(rt; sink.flush().is_ok() && sink.faults() == 1);
    assert!(rt; sink.write(b"call").is_err() && sink.faults() == 2);
    assert!(rt; sink.write(b"") == Ok(0) && sink.faults() == 2);
}
