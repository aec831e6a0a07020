// The lines of a text, byte by byte. They know nothing of what is said in them.
ghost use Rattle.std.specs.Prelude.{◌≡◌, ◌==◌, ◌≤◌, ◌<◌, ◌+◌, [], ◌∷◌, ◌++◌, length, All, true, false, not, if◌then◌else◌, Ok, Err, OnOk, OnErr};
ghost use Rattle.htl_base.specs.declared.limits.TheConstants as limit;
ghost use Rattle.htl_script.specs.Lines.{is_line_feed};
ghost use Rattle.htl_script.specs.LineReading.{first_place, StopsBefore, IsLinePlace};

use crate::ScriptKind;
use htl_base::limits::{MAX_LINE, MAX_SCRIPT};
use htl_edge::LineBuffer;
use std::marker::Model;

/// Where a reader of lines is: the line that is being read.
pub struct Lines {
    // Its number, from 1.
    number: u64,
    // How many bytes stand before it.
    start: u64,
    // What was read of it.
    line: LineBuffer,
}

impl Drop for Lines {
    fn drop(self) {
        let Self {
            number: _,
            start: _,
            line: _,
        } = self;
    }
}

impl Model for Lines {
    ghost use Rattle.htl_script.specs.LineReading.{Place, IsLinePlace};

    ghost Value = { Place };

    ghost view = { λ l. record { number = l.number; start = l.start; line = l.line } };

    ghost invariant = { λ l. IsLinePlace (record { number = l.number; start = l.start; line = l.line }) };
}

impl Lines {
    // At the beginning of a text.
    pub fn new() -> Lines
        ensures { result ≡ first_place }
    {
        Lines {
            number: 1,
            start: 0,
            line: LineBuffer::new(),
        }
    }

    // The number of the line, from 1.
    pub fn number(&self) -> u64
        ensures value { result ≡ self.now.number }
        ensures few { result ≤ limit.MAX_SCRIPT + 1 }
        ensures place { IsLinePlace self.now }
    {
        self.number
    }

    // Its invariant, for callers: the line is plain and short, and stands within the limit.
    pub fn keeps_place(&self)
        ensures { IsLinePlace self.now }
    {
        self.number();
    }

    // What was read of the line.
    pub fn text(&self) -> &[u8]
        ensures { result.now ≡ self.now.line }
    {
        self.line.as_bytes()
    }

    // Whether all bytes were read that a script may have.
    fn is_at_limit(&self) -> bool
        ensures value { result ≡ (self.now.start + length self.now.line == limit.MAX_SCRIPT) }
        ensures bound { self.now.start + length self.now.line ≤ limit.MAX_SCRIPT }
    {
        self.start + self.line.as_bytes().len() as u64 == MAX_SCRIPT
    }

    // Whether the line has all bytes that it may have.
    fn is_full(&self) -> bool
        ensures value { result ≡ (length self.now.line == limit.MAX_LINE) }
        ensures bound { length self.now.line ≤ limit.MAX_LINE }
    {
        self.line.as_bytes().len() == MAX_LINE
    }

    // Whether the line ends before a byte that follows; else it goes on with it.
    pub fn ends_before(&self, b: u8) -> Result<bool, ScriptKind>
        ensures { StopsBefore self.now b result }
    {
        if self.is_at_limit() {
            return Err(ScriptKind::Size);
        }
        if b == b'\n' {
            return Ok(true);
        }
        if self.is_full() {
            return Err(ScriptKind::Long);
        }
        Ok(false)
    }

    // How many bytes the line may have more.
    pub fn room(&self) -> usize
        ensures line { length self.now.line + result ≤ limit.MAX_LINE }
        ensures script { self.now.start + length self.now.line + result ≤ limit.MAX_SCRIPT }
        ensures some { length self.now.line < limit.MAX_LINE → self.now.start + length self.now.line < limit.MAX_SCRIPT → 1 ≤ result }
    {
        let size = self.line.as_bytes().len();
        (MAX_LINE - size).min((MAX_SCRIPT - self.start) as usize - size)
    }

    // Reads bytes of the line, none of which is a line feed.
    pub fn push_all(&mut self, run: &[u8])
        requires line { length self.old.line + length run.now ≤ limit.MAX_LINE }
        requires script { self.old.start + length self.old.line + length run.now ≤ limit.MAX_SCRIPT }
        requires plain { All (λ b. is_line_feed b ≡ false) run.now }
        ensures { self.new ≡ record self.old { line = self.old.line ++ run.now } }
    {
        self.line.text(run);
    }

    // Goes behind the line, and behind the line feed that ends it, if there is one.
    pub fn pass(&mut self, feed: u64)
        requires feed { feed ≤ 1 }
        requires room { self.old.start + (length self.old.line + feed) ≤ limit.MAX_SCRIPT }
        requires some { 1 ≤ length self.old.line + feed }
        ensures { self.new ≡ record { number = self.old.number + 1; start = self.old.start + (length self.old.line + feed); line = [] } }
    {
        self.start += self.line.as_bytes().len() as u64 + feed;
        self.number += 1;
        self.line.clear();
    }
}
