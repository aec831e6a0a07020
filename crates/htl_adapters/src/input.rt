// The script from a real reader, as standard input.
ghost use Rattle.std.specs.Prelude.{◌≡◌, ◌≤◌, ◌<◌, Ok, None, IfOk, length};
ghost use Rattle.std.specs.Io.KnownBytes.{ReadConsumes};
ghost use Rattle.htl_edge.specs.Causes.{HasCause};
ghost use Rattle.htl_edge.specs.Content.{TakesFront};

use htl_edge::{Failed, Source};
use std::io::Read;

/// A source over a reader. It counts each refused read as a fault. As a source it tells no content; where the reader
/// tells what it has left, a read passes on what the reader gives.
#[derive(Drop)]
pub struct Input<R> {
    inner: R,
    faults: u64,
}

impl<R> Input<R> {
    /// A source that reads from `inner`, with no fault counted.
    pub fn new(inner: R) -> Input<R>
        ensures inner { result.inner ≡ inner }
        ensures fresh { result.faults ≡ 0 }
    {
        Input { inner, faults: 0 }
    }
}

impl<R: Read> Source for Input<R> {
    ghost rest = { λ _. None };

    ghost faults = { λ s. s.faults };

    fn read(&mut self, buf: &mut [u8]) -> Result<usize, Failed>
        ensures bound { IfOk result (λ n. n ≤ length buf.new) }
        ensures bytes { TakesFront None None result buf.new }
        ensures empty { length buf.new ≡ 0 → result ≡ Ok 0 }
        ensures cause { HasCause self.old.faults self.new.faults result }
        ensures passed { 0 < length buf.new → ReadConsumes (R.remaining self.old.inner) (R.remaining self.new.inner) result buf.new }
    {
        if buf.is_empty() {
            return Ok(0);
        }
        match self.inner.read(buf) {
            Ok(count) => Ok(count),
            Err(_) => {
                self.faults = self.faults.saturating_add(1);
                Err(Failed)
            }
        }
    }
}
