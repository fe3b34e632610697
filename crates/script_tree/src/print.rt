// Numbers and values as bytes.

ghost use Rattle.std.specs.Prelude.{◌≡◌, ◌++◌, OnOk, OnErr, decimal};
ghost use Rattle.std.specs.Fmt.{signed_decimal};
ghost use Rattle.script_tree.specs.Printed.{value_text};

use crate::items::Text;
use crate::memory::OutOfMemory;
use crate::value::{Fault, Value};
use itoa::Buffer;

/// Adds a number in decimal digits, without leading zeros. Takes memory; after a refusal the text is as it was.
pub fn print_number(out: &mut Text, number: u32) -> Result<(), OutOfMemory>
    ensures ok { OnOk result (out.new ≡ out.old ++ decimal number) }
    ensures err { OnErr result (out.new ≡ out.old) }
{
    let mut buffer = Buffer::new();
    out.extend_from_slice(buffer.format(number).as_bytes())
}

// The same for a number with a sign.
fn print_int(out: &mut Text, number: i64) -> Result<(), OutOfMemory>
    ensures ok { OnOk result (out.new ≡ out.old ++ signed_decimal number) }
    ensures err { OnErr result (out.new ≡ out.old) }
{
    let mut buffer = Buffer::new();
    out.extend_from_slice(buffer.format(number).as_bytes())
}

// The word `fault` and the fault's kind.
fn fault_words(fault: Fault) -> &'static [u8]
    ensures { result.now ≡ value_text (Value.Fault fault) }
{
    match fault {
        Fault::Overflow => b"fault overflow",
        Fault::ZeroDivisor => b"fault zero-divisor",
        Fault::Kind => b"fault kind",
        Fault::NoChoice => b"fault no-choice",
    }
}

/// Adds a value: its decimal number, `true`, `false`, or `fault` and its kind. Takes memory; after a refusal the text
/// is as it was.
pub fn print_value(out: &mut Text, value: Value) -> Result<(), OutOfMemory>
    ensures ok { OnOk result (out.new ≡ out.old ++ value_text value) }
    ensures err { OnErr result (out.new ≡ out.old) }
{
    match value {
        Value::Int(number) => print_int(out, number),
        Value::Bool(truth) => out.extend_from_slice(if truth { b"true" } else { b"false" }),
        Value::Fault(fault) => out.extend_from_slice(fault_words(fault)),
    }
}
