// The lines of a source, one by one.
ghost use Rattle.std.specs.Prelude.{◌≡◌, ◌≤◌, ◌+◌, [], ◌∷◌, drop, length, Err, false, ◌<◌, ℕ, List, Option};
ghost use Rattle.htl_base.specs.declared.limits.TheConstants as limit;
ghost use Rattle.htl_edge.specs.Causes.{Rose};
ghost use Rattle.htl_script.specs.declared.fault.ScriptStop.TheVariants as stop;
ghost use Rattle.htl_script.specs.Lines.{is_line_feed};
ghost use Rattle.htl_script.specs.LineReading.{first_place, nothing_read, IsAtLine, IsLinePlace, AnswersLine, ReadsOn, behind_line};

use crate::chunk::Chunk;
use crate::lines::Lines;
use crate::{ScriptFault, ScriptKind, ScriptStop};
use htl_edge::Source;
use std::marker::Model;

/// Reads the lines of a script or of a like text, over a buffer of 256 bytes: each of at most 255 bytes, and 1,073,741,824 bytes in all,
/// line feeds counted. It takes no memory. Contracts see where it is and what it has read ahead.
pub struct LineStream {
    lines: Lines,
    chunk: Chunk,
}

impl Drop for LineStream {
    fn drop(self) {
        let Self { lines: _, chunk: _ } = self;
    }
}

impl Model for LineStream {
    ghost use Rattle.htl_script.specs.LineReading.{LinesAhead};

    ghost Value = { LinesAhead };

    ghost view = { λ s. record { place = s.lines; ahead = s.chunk } };
}

impl LineStream {
    /// A reader at the beginning of a text.
    pub fn new() -> LineStream
        ensures { result ≡ record { place = first_place; ahead = nothing_read } }
    {
        LineStream {
            lines: Lines::new(),
            chunk: Chunk::new(),
        }
    }

    /// Reads to the end of the line; false where the input has ended and no line is left. `Script` comes exactly where the line breaks a
    /// rule on its size: `Size` where byte 1,073,741,825 of the text is one of its first 256 bytes, its line feed counted, and else
    /// `Long` where it has a 256th byte. `Read` comes only where the source counted a fault. Behind a line `pass` comes before the next
    /// call.
    #[inline(always)]
    pub fn next<R: Source>(&mut self, src: &mut R) -> Result<bool, ScriptStop>
        ensures answer { AnswersLine self.new result }
        ensures reads { ReadsOn self.old self.new (R.rest src.old) (R.rest src.new) }
        ensures place { IsLinePlace self.new.place }
        ensures few { length self.new.ahead.bytes ≤ 256 }
        ensures later { R.faults src.old ≤ R.faults src.new }
        ensures kept { (result ≡ Err stop.Read → ⊥) → R.faults src.new ≡ R.faults src.old }
        ensures read { result ≡ Err stop.Read → Rose (R.faults src.old) (R.faults src.new) }
    {
        'pieces: loop {
            self.lines.keeps_place();
            let b = match self.chunk.first(src) {
                Ok(Some(b)) => b,
                Ok(None) => return Ok(!self.lines.text().is_empty()),
                Err(_) => return Err(ScriptStop::Read),
            };
            match self.lines.ends_before(b) {
                Ok(true) => return Ok(true),
                Ok(false) => {
                    let room = self.lines.room();
                    self.run_on(room);
                }
                Err(kind) => return Err(self.fault(kind)),
            }
        }
    }

    // Moves the bytes that were read ahead, up to a line feed, to the line, so many at most.
    fn run_on(&mut self, most: usize)
        requires plain { (b : ℕ) × (self.old.ahead.bytes ≡ b ∷ drop 1 self.old.ahead.bytes) × (is_line_feed b ≡ false) }
        requires some { 1 ≤ most }
        requires line { length self.old.place.line + most ≤ limit.MAX_LINE }
        requires script { self.old.place.start + length self.old.place.line + most ≤ limit.MAX_SCRIPT }
        ensures moved { (rest : Option (List ℕ)) → ReadsOn self.old self.new rest rest }
        ensures more { length self.old.place.line < length self.new.place.line }
    {
        let count = self.chunk.plain(most);
        self.lines.push_all(self.chunk.front(count));
        self.chunk.skip(count);
    }

    /// What was read of the line: all of it, without its line feed, where `next` gave it.
    pub fn text(&self) -> &[u8]
        ensures { result.now ≡ self.now.place.line }
    {
        self.lines.text()
    }

    /// Goes behind the line that was read.
    pub fn pass(&mut self)
        requires { IsAtLine self.old }
        ensures { self.new ≡ behind_line self.old }
    {
        let feed = self.chunk.has_some();
        self.lines.pass(feed as u64);
        self.chunk.skip(feed as usize);
    }

    /// A fault of the line that is being read.
    pub fn fault(&self, kind: ScriptKind) -> ScriptStop
        ensures { result ≡ stop.Script (record { line = self.now.place.number; kind = kind }) }
    {
        ScriptStop::Script(ScriptFault {
            line: self.lines.number(),
            kind,
        })
    }
}
