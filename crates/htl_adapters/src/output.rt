// The lines to a real writer, as standard output and standard error.
ghost use Rattle.std.specs.Prelude.{◌≡◌, ◌≤◌, ◌<◌, ℕ, None, IfOk, OnErr, length, take};
ghost use Rattle.std.specs.Io.KnownBytes.{Appends};
ghost use Rattle.htl_edge.specs.Causes.{HasCause};
ghost use Rattle.htl_edge.specs.Content.{AppendsFront};

use htl_edge::{Failed, Sink};
use std::io::Write;

/// A sink over a writer. It flushes after each write, which is tested and no clause. A refused write or flush is counted
/// as a fault, and so is a write that takes nothing of a piece. As a sink it tells no content; where the writer tells
/// what it holds, it gained what was taken of the piece.
#[derive(Drop)]
pub struct Output<W> {
    inner: W,
    faults: u64,
}

impl<W> Output<W> {
    /// A sink that writes to `inner`, with no fault counted.
    pub fn new(inner: W) -> Output<W>
        ensures inner { result.inner ≡ inner }
        ensures fresh { result.faults ≡ 0 }
    {
        Output { inner, faults: 0 }
    }
}

impl<W: Write> Sink for Output<W> {
    ghost written = { λ _. None };

    ghost faults = { λ s. s.faults };

    fn write(&mut self, piece: &[u8]) -> Result<usize, Failed>
        ensures bound { IfOk result (λ n. n ≤ length piece.now) }
        ensures some { IfOk result (λ n. 0 < length piece.now → 0 < n) }
        ensures bytes { AppendsFront None None result piece.now }
        ensures cause { HasCause self.old.faults self.new.faults result }
        ensures passed { IfOk result (λ n. 0 < n → Appends (W.contents self.old.inner) (W.contents self.new.inner) (take n piece.now)) }
        ensures prefix { OnErr result ((n : ℕ) × (n ≤ length piece.now) × Appends (W.contents self.old.inner) (W.contents self.new.inner) (take n piece.now)) }
    {
        if piece.is_empty() {
            return Ok(0);
        }
        match self.inner.write(piece) {
            Ok(count) if count > 0 && self.inner.flush().is_ok() => Ok(count),
            _ => {
                self.faults = self.faults.saturating_add(1);
                Err(Failed)
            }
        }
    }
}
