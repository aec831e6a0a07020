// Bytes put one behind the other.
ghost use Rattle.std.specs.Prelude.{◌≡◌, ◌∷◌, [], IfOk, Some};
ghost use Rattle.htl_object.specs.Bytes.{Puts};

use htl_base::Memory;
use std::alloc::Global;
use std::marker::Model;

/// The bytes put so far. Once memory was lacking no more is put, and the end tells so.
#[derive(Drop)]
pub struct Bytes {
    items: Vec<u8>,
    lacks_memory: bool,
}

impl Model for Bytes {
    ghost use Rattle.std.specs.Prelude.{List, ℕ, None, Option, Some, cond};

    ghost Value = { Option (List ℕ) };

    ghost view = { λ b. cond b.lacks_memory None (Some b.items.items) };
}

impl Bytes {
    pub fn new(alloc: Global) -> Bytes
        ensures { result ≡ Some [] }
    {
        Bytes {
            items: Vec::new(alloc),
            lacks_memory: false,
        }
    }

    /// Puts a byte.
    pub fn push(&mut self, byte: u8)
        ensures { Puts (byte ∷ []) self.old self.new }
    {
        self.extend(&[byte]);
    }

    /// Puts bytes.
    pub fn extend(&mut self, bytes: &[u8])
        ensures { Puts bytes.now self.old self.new }
    {
        if !self.lacks_memory {
            self.lacks_memory = self.items.extend_from_slice(bytes).is_err();
        }
    }

    /// All that was put; Memory where memory was lacking.
    pub fn into_items(self) -> Result<Vec<u8>, Memory>
        ensures { IfOk result (λ bytes. self ≡ Some bytes.items) }
    {
        if self.lacks_memory {
            return Err(Memory);
        }
        Ok(self.items)
    }
}
