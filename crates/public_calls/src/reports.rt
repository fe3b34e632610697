// A report that is read back, and one that is cut.

use crate::replies::{counts_of, looks_of};
use report_text::data::{CallLine, Report};
use report_text::{ReportFault, read_report};
use script_tree::value::{Fault, Value};
use signal_graph::log::{Refused, Why};
use std::test::Fail;

const REPORT: &[u8] = b"call 1 thread 1 fire changed 2 evaluated 1 look b=6
call 2 thread 2 read a=5, b=fault no-choice
refused thread 1 call 2 unknown name 2
refused thread 2 call 2 versions used up 1
final a=true
done 2 accepted 2 refused
";

const CUT: &[u8] = b"call 1 thread 1 read a=5\nfinal a=5\n";

// Whether the call lines are those of the text.
fn has_its_calls(fire: &CallLine, read: &CallLine) -> bool {
    fire.version == 1
        && fire.caller == 1
        && counts_of(&fire.reply) == Some((2, 1))
        && looks_of(&fire.reply) == [Value::Int(6)].as_slice()
        && read.version == 2
        && read.caller == 2
        && counts_of(&read.reply).is_none()
        && looks_of(&read.reply) == [Value::Int(5), Value::Fault(Fault::NoChoice)].as_slice()
}

// Whether a call line looks at `a` and `b`, or at `b` alone.
fn has_its_names(line: &CallLine) -> bool {
    let mut expected = if line.names.len() == 2 { b'a' } else { b'b' };
    for name in line.names.as_slice() {
        if name.as_slice() != [expected].as_slice() {
            return false;
        }
        expected = b'b';
    }
    !line.names.as_slice().is_empty()
}

// Whether all behind the call lines is that of the text.
fn has_the_rest(report: &Report) -> bool {
    let unknown = Refused {
        caller: 1,
        number: 2,
        why: Why::UnknownName(2),
    };
    let used_up = Refused {
        caller: 2,
        number: 2,
        why: Why::VersionsUsedUp(1),
    };
    for (name, value) in report.finals.as_slice() {
        if name.as_slice() != b"a".as_slice() || *value != Value::Bool(true) {
            return false;
        }
    }
    report.refused.as_slice() == [unknown, used_up].as_slice()
        && report.finals.len() == 1
        && report.accepted == 2
        && report.refusals == 2
}

#[test]
fn a_report_is_read_back(rt: HostRuntime) -> Result<(), Fail> {
    let report = read_report(rt.alloc(), REPORT)?;
    assert!(rt; report.calls.len() == 2);
    assert!(rt; has_its_calls(report.calls.get(0), report.calls.get(1)));
    assert!(rt; has_its_names(report.calls.get(0)) && has_its_names(report.calls.get(1)));
    assert!(rt; has_the_rest(&report));
    Ok(())
}

#[test]
fn a_cut_report_is_refused_behind_its_last_line(rt: HostRuntime) {
    let read = read_report(rt.alloc(), CUT);
    assert!(rt; matches!(&read, Err(ReportFault::Syntax(3))));
}
