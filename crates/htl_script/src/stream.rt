// The reader of a script, event by event, where the names are in order. What is done at each line stands in line in the run (`inline`):
// handing answers on through memory costs a sixth of a short line.
ghost use Rattle.std.specs.Prelude.{◌≡◌, ◌≤◌, ◌<◌, ◌+◌, IfOk, IfSome, OnOk, None, Some, Ok, Err};
ghost use Rattle.htl_base.specs.declared.limits.TheConstants as limit;
ghost use Rattle.htl_edge.specs.Causes.{Rose};
ghost use Rattle.htl_script.specs.declared.fault.ScriptFault.{ScriptFault as Fault};
ghost use Rattle.htl_script.specs.declared.fault.ScriptStop.TheVariants as stop;
ghost use Rattle.htl_script.specs.LineReading.{IsAtLine};
ghost use Rattle.htl_script.specs.Streaming.{Gives, IsAnswer, AnswersEnd, TakesLine, Goes, LosesPiece, at_start, lines_in};

use crate::judge::{Past, judge};
use crate::line_stream::LineStream;
use crate::lookup::Names;
use crate::{ScriptKind, ScriptStop};
use htl_edge::Source;
use htl_model::Event;
use std::marker::Model;

/// Reads a script event by event, over a buffer of 256 bytes. Contracts see where it is and what it has read ahead.
pub struct Stream {
    // The reader of its lines.
    lines: LineStream,
    // What the events so far leave.
    past: Past,
}

impl Drop for Stream {
    fn drop(self) {
        let Self { lines: _, past: _ } = self;
    }
}

impl Model for Stream {
    ghost use Rattle.htl_script.specs.Streaming.{Ahead, ahead_of};

    ghost Value = { Ahead };

    ghost view = { λ s. ahead_of s.lines s.past };
}

impl Stream {
    /// A reader at the beginning of a script.
    pub fn new() -> Stream
        ensures { result ≡ at_start }
    {
        Stream {
            lines: LineStream::new(),
            past: Past::new(),
        }
    }

    /// The next event; None where the input has ended after an `end` line.
    #[inline(always)]
    pub fn next<R: Source>(
        &mut self,
        src: &mut R,
        names: &Names<'_>,
    ) -> Result<Option<Event>, ScriptStop>
        ensures answer { Gives self.old.ahead.over self.new.ahead.over (R.rest src.old) (R.rest src.new) (IsAnswer names.now self.old self.new result) }
        ensures taken { LosesPiece self.old self.new (R.rest src.old) (R.rest src.new) result }
        ensures event { Goes names.now self.old.here.past self.new.here.past result }
        ensures lines { IfOk result (λ o. IfSome o (λ e. self.old.here.number < self.new.here.number)) }
        ensures few { IfOk result (λ o. self.new.here.number ≤ limit.MAX_SCRIPT + 1) }
        ensures line { (fault : Fault) → result ≡ Err (stop.Script fault) → fault.line ≡ self.new.here.number }
        ensures later { R.faults src.old ≤ R.faults src.new }
        ensures kept { (result ≡ Err stop.Read → ⊥) → R.faults src.new ≡ R.faults src.old }
        ensures read { result ≡ Err stop.Read → Rose (R.faults src.old) (R.faults src.new) }
    {
        'lines: loop {
            match self.lines.next(src) {
                Ok(true) => {}
                Ok(false) => return self.end(),
                Err(stop) => return Err(stop),
            }
            match self.take_line(names) {
                Ok(Some(event)) => return Ok(Some(event)),
                Ok(None) => {}
                Err(stop) => return Err(stop),
            }
        }
    }

    // Judges the line that was read, and goes behind it. After a fault nothing is changed.
    #[inline(always)]
    fn take_line(&mut self, names: &Names<'_>) -> Result<Option<Event>, ScriptStop>
        requires { IsAtLine (lines_in self.old) }
        ensures { TakesLine names.now self.old self.new result }
    {
        match judge(self.past, names, self.lines.text()) {
            Ok(Some(event)) => {
                self.past.follow(event);
                self.lines.pass();
                Ok(Some(event))
            }
            Ok(None) => {
                self.lines.pass();
                Ok(None)
            }
            Err(kind) => Err(self.lines.fault(kind)),
        }
    }

    // What is answered behind the last line.
    fn end(&self) -> Result<Option<Event>, ScriptStop>
        ensures { AnswersEnd self.now result }
    {
        if self.past.end.is_some() {
            Ok(None)
        } else {
            Err(self.lines.fault(ScriptKind::NoEnd))
        }
    }
}
