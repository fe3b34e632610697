//! Laws of a run of all scripts, thread after thread.

ghost use Rattle.std.specs.Prelude.{◌≡◌, ℕ, List};
ghost use Rattle.script_tree.specs.declared.value.Value.{Value};
ghost use Rattle.signal_graph.specs.declared.call.Call.{Call};
ghost use Rattle.signal_graph.specs.declared.log.Logged.{Logged};
ghost use Rattle.signal_graph.specs.declared.log.Refused.{Refused};
ghost use Rattle.signal_graph.specs.Graph.{Graph};
ghost use Rattle.serial_machine.specs.SerialOrder.{IsSerialLog, IsSerialRun, IsThreadAfterThread};

/// A graph, scripts and a limit of versions have one run thread after thread: what two such runs leave is the same.
#[tactic(auto, using(crate::proofs::ThreadByThread::same_run))]
pub fn one_run()
    ensures { (graph : Graph) (scripts : List (List Call)) (limit : ℕ) (log other : List Logged) (refused refused_too : List Refused)
        (last last_too : List Value) → IsSerialRun graph scripts limit log refused last
        → IsSerialRun graph scripts limit other refused_too last_too → (log ≡ other) × (refused ≡ refused_too) × (last ≡ last_too) }
{}

/// In the log of such a run all calls of a thread stand before those of a later one.
pub fn thread_after_thread()
    ensures { (graph : Graph) (scripts : List (List Call)) (limit : ℕ) (log : List Logged) → IsSerialLog graph scripts limit log
        → IsThreadAfterThread log }
{}
