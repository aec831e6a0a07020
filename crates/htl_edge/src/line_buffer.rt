// One line of text, in a buffer of its own.
ghost use Rattle.std.specs.Prelude.{◌≡◌, ◌≤◌, ◌<◌, ◌+◌, [], ◌∷◌, ◌++◌, length, decimal};
ghost use Rattle.std.specs.Fmt.{signed_decimal};
ghost use Rattle.htl_base.specs.declared.limits.TheConstants as limit;

use htl_base::limits::MAX_LINE;
use itoa::Buffer;
use std::marker::Model;

/// At most 255 bytes, held in place: a line of input as it is read, or one of output as it is put together.
/// Contracts see the bytes.
#[derive(Drop)]
pub struct LineBuffer {
    bytes: [u8; MAX_LINE],
    len: usize,
}

impl Model for LineBuffer {
    ghost use Rattle.std.specs.Prelude.{◌≤◌, List, ℕ, take};
    ghost use Rattle.htl_base.specs.declared.limits.TheConstants as limit;

    ghost Value = { List ℕ };

    ghost view = { λ l. take l.len l.bytes };

    ghost invariant = { λ l. l.len ≤ limit.MAX_LINE };
}

impl LineBuffer {
    /// The empty line.
    pub fn new() -> LineBuffer
        ensures bytes { result ≡ [] }
        ensures len { length result ≡ 0 }
    {
        LineBuffer {
            bytes: [0; MAX_LINE],
            len: 0,
        }
    }

    /// What the line holds, 0 to 255 bytes.
    pub fn as_bytes(&self) -> &[u8]
        ensures bytes { result.now ≡ self.now }
        ensures short { length self.now ≤ limit.MAX_LINE }
    {
        &self.bytes[..self.len]
    }

    /// Adds a byte.
    pub fn push(&mut self, b: u8)
        requires { length self.old < limit.MAX_LINE }
        ensures bytes { self.new ≡ self.old ++ b ∷ [] }
        ensures len { length self.new ≡ length self.old + 1 }
    {
        self.bytes[self.len] = b;
        self.len += 1;
    }

    /// Adds a text.
    pub fn text(&mut self, piece: &[u8])
        requires { length self.old + length piece.now ≤ limit.MAX_LINE }
        ensures bytes { self.new ≡ self.old ++ piece.now }
        ensures len { length self.new ≡ length self.old + length piece.now }
    {
        let end = self.len + piece.len();
        self.bytes[self.len..end].copy_from_slice(piece);
        self.len = end;
    }

    /// Adds a number in decimal: at most 20 bytes.
    pub fn number(&mut self, n: u64)
        requires { length self.old + 20 ≤ limit.MAX_LINE }
        ensures bytes { self.new ≡ self.old ++ decimal n }
        ensures len { length self.new ≤ length self.old + 20 }
    {
        let mut buffer = Buffer::new();
        self.text(buffer.format(n).as_bytes());
    }

    /// Adds a number in decimal, after `-` where it is negative: at most 20 bytes.
    pub fn signed(&mut self, x: i64)
        requires { length self.old + 20 ≤ limit.MAX_LINE }
        ensures bytes { self.new ≡ self.old ++ signed_decimal x }
        ensures len { length self.new ≤ length self.old + 20 }
    {
        let mut buffer = Buffer::new();
        self.text(buffer.format(x).as_bytes());
    }

    /// Takes all bytes away.
    pub fn clear(&mut self)
        ensures bytes { self.new ≡ [] }
        ensures len { length self.new ≡ 0 }
    {
        self.len = 0;
    }
}
