// A script, event by event.
ghost use Rattle.std.specs.Prelude.{◌≡◌, ◌≤◌, ◌<◌, ◌+◌, IfOk, IfSome, true, false, Err};
ghost use Rattle.htl_base.specs.declared.limits.TheConstants as limit;
ghost use Rattle.htl_edge.specs.Causes.{Rose};
ghost use Rattle.htl_script.specs.declared.fault.ScriptFault.{ScriptFault as Fault};
ghost use Rattle.htl_script.specs.declared.fault.ScriptStop.TheVariants as stop;
ghost use Rattle.htl_script.specs.Orders.{IsIndex};
ghost use Rattle.htl_script.specs.Streaming.{Gives, IsAnswer, Goes, LosesPiece, at_start};

use crate::ScriptStop;
use crate::index::Index;
use crate::lookup::Names;
use crate::stream::Stream;
use htl_edge::Source;
use htl_model::{Event, Tables};

/// Reads a script event by event, over a buffer of 256 bytes, and finds names by halves in an index of its own. It takes no
/// memory.
pub struct Script {
    stream: Stream,
    // that of the tables, once it is ready
    index: Index,
    ready: bool,
}

impl Drop for Script {
    fn drop(self) {
        let Self {
            stream: _,
            index: _,
            ready: _,
        } = self;
    }
}

impl Script {
    /// A reader at the beginning of a script.
    pub fn new() -> Script
        ensures stream { result.stream ≡ at_start }
        ensures ready { result.ready ≡ false }
    {
        Script {
            stream: Stream::new(),
            index: Index::empty(),
            ready: false,
        }
    }

    /// The next event; None exactly where the input has ended after an `end` line. `Script` comes exactly at the script's first
    /// fault, `Read` only where the source counted a fault. Each call is handed the tables of the first, and its source with what
    /// the call before left. After a stop or None it isn't used again. At most 1,073,741,825 events are given, and all
    /// calls together take at most 1,073,742,080 bytes: those of the longest script, and one piece of 256. By each answer no more was
    /// taken than the lines up to the one where the reader then is, which a fault names, and one piece.
    ///
    /// The first call puts the names of the tables in order; then a line costs its own bytes.
    #[inline(always)]
    pub fn next<R: Source>(&mut self, src: &mut R, t: &Tables) -> Result<Option<Event>, ScriptStop>
        requires same { self.old.ready ≡ true → IsIndex t.now self.old.index }
        ensures ready { self.new.ready ≡ true }
        ensures index { IsIndex t.now self.new.index }
        ensures answer { Gives self.old.stream.ahead.over self.new.stream.ahead.over (R.rest src.old) (R.rest src.new) (IsAnswer t.now self.old.stream self.new.stream result) }
        ensures taken { LosesPiece self.old.stream self.new.stream (R.rest src.old) (R.rest src.new) result }
        ensures event { Goes t.now self.old.stream.here.past self.new.stream.here.past result }
        ensures lines { IfOk result (λ o. IfSome o (λ e. self.old.stream.here.number < self.new.stream.here.number)) }
        ensures few { IfOk result (λ o. self.new.stream.here.number ≤ limit.MAX_SCRIPT + 1) }
        ensures line { (fault : Fault) → result ≡ Err (stop.Script fault) → fault.line ≡ self.new.stream.here.number }
        ensures later { R.faults src.old ≤ R.faults src.new }
        ensures kept { (result ≡ Err stop.Read → ⊥) → R.faults src.new ≡ R.faults src.old }
        ensures read { result ≡ Err stop.Read → Rose (R.faults src.old) (R.faults src.new) }
    {
        self.prepare(t);
        self.stream.next(src, &Names::new(t, &self.index))
    }

    // Puts the names in order, if that isn't done.
    fn prepare(&mut self, t: &Tables)
        requires { self.old.ready ≡ true → IsIndex t.now self.old.index }
        ensures ready { self.new.ready ≡ true }
        ensures index { IsIndex t.now self.new.index }
        ensures stream { self.new.stream ≡ self.old.stream }
    {
        if !self.ready {
            self.index.fill(t);
            self.ready = true;
        }
    }
}
