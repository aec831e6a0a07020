// The bytes that are left to read.
ghost use Rattle.std.specs.Prelude.{◌≡◌, ◌≤◌, ◌==◌, IfOk, length};
ghost use Rattle.std.specs.Int.{w16, w32};
ghost use Rattle.htl_object.specs.Reading.{Gives, byte_at, number_at, limited_count};
ghost use Rattle.htl_object.specs.Fields.{name_at, type_at, flag_at, value_at, span_at, place_at, owner_at, option_at, init_at};
ghost use Rattle.htl_object.specs.Versions.{text_at, version_at, head_at};
ghost use Rattle.htl_object.specs.Instructions.{phase_at};

use crate::malformed::{Bad, MalKind, Stop};
use htl_base::limits::MAX_PERIOD;
use htl_base::{Name, Ty, Value};
use std::marker::Model;

/// A reader of bytes from left to right; contracts see the bytes that are left.
#[derive(Drop)]
pub struct Cursor<'a> {
    left: &'a [u8],
}

impl<'a> Model for Cursor<'a> {
    ghost use Rattle.std.specs.Prelude.{List, ℕ};

    ghost Value = { List ℕ };

    ghost view = { λ c. c.left.now };
}

const SHORT: Stop = Stop::Bad(Bad {
    kind: MalKind::Short,
    left: 0,
});

impl<'a> Cursor<'a> {
    /// All of the bytes.
    pub fn new(bytes: &'a [u8]) -> Cursor<'a>
        ensures { result ≡ bytes.now }
    {
        Cursor { left: bytes }
    }

    /// How many bytes are left.
    pub fn left(&self) -> usize
        ensures { result ≡ length self.now }
    {
        self.left.len()
    }

    /// Whether no byte is left.
    pub fn is_at_end(&self) -> bool
        ensures { result ≡ (length self.now == 0) }
    {
        self.left.len() == 0
    }

    /// The bytes that are left.
    pub fn rest(&self) -> &'a [u8]
        ensures { result.now ≡ self.now }
    {
        self.left
    }

    /// One byte.
    pub fn byte(&mut self) -> Result<u8, Stop>
        ensures { Gives (λ x. x) (byte_at self.old) self.new result }
    {
        match self.left {
            [] => Err(SHORT),
            [b, rest @ ..] => {
                self.left = rest;
                Ok(*b)
            }
        }
    }

    /// A number of two bytes.
    pub fn u16(&mut self) -> Result<u16, Stop>
        ensures { Gives (λ x. x) (number_at w16 self.old) self.new result }
    {
        if self.left.len() < 2 {
            return Err(SHORT);
        }
        let (front, rest) = self.left.split_at(2);
        self.left = rest;
        Ok(u16::from_be_bytes([front[0], front[1]]))
    }

    /// A number of four bytes.
    pub fn u32(&mut self) -> Result<u32, Stop>
        ensures { Gives (λ x. x) (number_at w32 self.old) self.new result }
    {
        if self.left.len() < 4 {
            return Err(SHORT);
        }
        let (front, rest) = self.left.split_at(4);
        self.left = rest;
        Ok(u32::from_be_bytes([front[0], front[1], front[2], front[3]]))
    }

    /// A value of eight bytes.
    pub fn value(&mut self) -> Result<Value, Stop>
        ensures { Gives (λ x. x) (value_at self.old) self.new result }
    {
        if self.left.len() < 8 {
            return Err(SHORT);
        }
        let (front, rest) = self.left.split_at(8);
        self.left = rest;
        Ok(i64::from_be_bytes([
            front[0], front[1], front[2], front[3], front[4], front[5], front[6], front[7],
        ]))
    }

    /// A name: its length and its bytes.
    pub fn name(&mut self) -> Result<Name, Stop>
        ensures { Gives (λ x. x) (name_at self.old) self.new result }
    {
        let left = self.left.len();
        let len = self.byte()? as usize;
        if self.left.len() < len {
            return Err(SHORT);
        }
        let (front, rest) = self.left.split_at(len);
        match Name::new(front) {
            None => Err(bad(MalKind::Spelling, left)),
            Some(name) => {
                self.left = rest;
                Ok(name)
            }
        }
    }

    /// A type.
    pub fn ty(&mut self) -> Result<Ty, Stop>
        ensures { Gives (λ x. x) (type_at self.old) self.new result }
    {
        let left = self.left.len();
        match self.byte()? {
            0 => Ok(Ty::Int),
            1 => Ok(Ty::Bool),
            _ => Err(bad(MalKind::Tag, left)),
        }
    }

    /// A flag.
    pub fn flag(&mut self) -> Result<bool, Stop>
        ensures { Gives (λ x. x) (flag_at self.old) self.new result }
    {
        let left = self.left.len();
        match self.byte()? {
            0 => Ok(false),
            1 => Ok(true),
            _ => Err(bad(MalKind::Tag, left)),
        }
    }

    /// A period or a worst case.
    pub fn span(&mut self) -> Result<u32, Stop>
        ensures { Gives (λ x. x) (span_at self.old) self.new result }
    {
        let left = self.left.len();
        let n = self.u32()?;
        if n < 1 || n > MAX_PERIOD {
            return Err(bad(MalKind::Index, left));
        }
        Ok(n)
    }

    /// The number of an item of a list of so many.
    pub fn place(&mut self, count: usize) -> Result<u16, Stop>
        ensures { Gives (λ x. x) (place_at count self.old) self.new result }
    {
        let left = self.left.len();
        let n = self.u16()?;
        if n as usize >= count {
            return Err(bad(MalKind::Index, left));
        }
        Ok(n)
    }

    /// An optional number.
    pub fn option(&mut self) -> Result<Option<u16>, Stop>
        ensures { Gives (λ x. x) (option_at self.old) self.new result }
    {
        let n = self.u16()?;
        if n == u16::MAX { Ok(None) } else { Ok(Some(n)) }
    }

    /// Just this text.
    pub fn text(&mut self, kind: MalKind, text: &[u8]) -> Result<(), Stop>
        ensures { Gives (λ _. text.now) (text_at kind text.now self.old) self.new result }
    {
        let left = self.left.len();
        if left < text.len() {
            return Err(SHORT);
        }
        let (front, rest) = self.left.split_at(text.len());
        if front != text {
            return Err(bad(kind, left));
        }
        self.left = rest;
        Ok(())
    }

    /// The number of a version: 1 or 2.
    pub fn version(&mut self) -> Result<u16, Stop>
        ensures { Gives (λ x. x) (version_at self.old) self.new result }
    {
        let left = self.left.len();
        let n = self.u16()?;
        if n != 1 && n != 2 {
            return Err(bad(MalKind::Version, left));
        }
        Ok(n)
    }

    /// The head: the file's text, its version, and from version 2 on the name of a platform.
    pub fn head(&mut self) -> Result<Option<Name>, Stop>
        ensures { Gives (λ x. x) (head_at self.old) self.new result }
    {
        self.text(MalKind::Magic, b"HTLO")?;
        let version = self.version()?;
        if version == 1 {
            return Ok(None);
        }
        Ok(Some(self.name()?))
    }

    /// A count up to a limit.
    pub fn count(&mut self, limit: usize) -> Result<u16, Stop>
        ensures reads { Gives (λ x. x) (limited_count limit self.old) self.new result }
        ensures few { IfOk result (λ n. n ≤ limit) }
    {
        let left = self.left.len();
        let n = self.u16()?;
        if n as usize > limit {
            return Err(bad(MalKind::Index, left));
        }
        Ok(n)
    }

    /// The number of an owner, which doesn't fall along the list.
    pub fn owner(&mut self, count: usize, least: u16) -> Result<u16, Stop>
        ensures { Gives (λ x. x) (owner_at count least self.old) self.new result }
    {
        let left = self.left.len();
        let n = self.u16()?;
        if n as usize >= count || n < least {
            return Err(bad(MalKind::Index, left));
        }
        Ok(n)
    }

    /// A phase of a trigger: 1, 2 or 3.
    pub fn phase(&mut self) -> Result<u8, Stop>
        ensures { Gives (λ x. x) (phase_at self.old) self.new result }
    {
        let left = self.left.len();
        let n = self.byte()?;
        if n < 1 || n > 3 {
            return Err(bad(MalKind::Tag, left));
        }
        Ok(n)
    }

    /// A value of the type.
    pub fn init(&mut self, ty: Ty) -> Result<Value, Stop>
        ensures { Gives (λ x. x) (init_at ty self.old) self.new result }
    {
        let left = self.left.len();
        let x = self.value()?;
        if ty == Ty::Bool && x != 0 && x != 1 {
            return Err(bad(MalKind::Spelling, left));
        }
        Ok(x)
    }
}

/// The field with so many bytes from its first on is bad.
pub fn bad(kind: MalKind, left: usize) -> Stop
    ensures { result ≡ Stop.Bad (record { kind = kind; left = left }) }
{
    Stop::Bad(Bad { kind, left })
}
