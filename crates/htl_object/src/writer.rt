// Fields at the end of bytes.
ghost use Rattle.std.specs.Prelude.{◌≡◌, ◌<◌, ◌^◌, ◌++◌, true, length, All, FitsSigned};
ghost use Rattle.std.specs.Int.{w16, w32, w64, to_be_bytes};
ghost use Rattle.std.specs.List.{flat_map};
ghost use Rattle.htl_base.specs.Names.{is_name};
ghost use Rattle.htl_object.specs.Bytes.{Puts};
ghost use Rattle.htl_object.specs.Fields.{name_bytes, flag_bytes, value_bytes, option_bytes};

use crate::bytes::Bytes;
use htl_base::{Name, Value};

/// What has one spelling.
pub trait Spelled: Sized {
    ghost use Rattle.std.specs.Prelude.{ℕ, List};

    ghost spelling: { Self → List ℕ };

    ghost keeps: { Self → Type 0 };

    /// Puts the spelling at the end of bytes. What is spelled keeps what the types of its fields say.
    fn put(&self, out: &mut Bytes)
        ensures spelled { Puts (spelling self.now) out.old out.new }
        ensures types { keeps self.now };
}

/// Puts items, one behind the other.
pub fn put_all<T: Spelled>(out: &mut Bytes, items: &[T])
    ensures spelled { Puts (flat_map T.spelling items.now) out.old out.new }
    ensures types { All T.keeps items.now }
{
    for x in items {
        x.put(out);
    }
}

/// Puts a count's two low bytes.
pub fn put_count(out: &mut Bytes, n: usize)
    ensures { Puts (to_be_bytes w16 n) out.old out.new }
{
    let bytes = n.to_be_bytes();
    out.extend(&[bytes[6], bytes[7]]);
}

/// Puts a count's four low bytes.
pub fn put_long_count(out: &mut Bytes, n: usize)
    ensures { Puts (to_be_bytes w32 n) out.old out.new }
{
    let bytes = n.to_be_bytes();
    out.extend(&[bytes[4], bytes[5], bytes[6], bytes[7]]);
}

/// Puts a count of two bytes and the items.
pub fn put_list<T: Spelled>(out: &mut Bytes, items: &[T])
    ensures spelled { Puts (to_be_bytes w16 (length items.now) ++ flat_map T.spelling items.now) out.old out.new }
    ensures types { All T.keeps items.now }
{
    put_count(out, items.len());
    put_all(out, items);
}

/// Puts a count of four bytes and the items.
pub fn put_long_list<T: Spelled>(out: &mut Bytes, items: &[T])
    ensures spelled { Puts (to_be_bytes w32 (length items.now) ++ flat_map T.spelling items.now) out.old out.new }
    ensures types { All T.keeps items.now }
{
    put_long_count(out, items.len());
    put_all(out, items);
}

/// Puts a number of two bytes.
pub fn put16(out: &mut Bytes, n: u16)
    ensures spelled { Puts (to_be_bytes w16 n) out.old out.new }
    ensures types { n < 2 ^ 16 }
{
    out.extend(&n.to_be_bytes());
}

/// Puts a number of four bytes.
pub fn put32(out: &mut Bytes, n: u32)
    ensures spelled { Puts (to_be_bytes w32 n) out.old out.new }
    ensures types { n < 2 ^ 32 }
{
    out.extend(&n.to_be_bytes())
}

/// Puts a value's eight bytes.
pub fn put_value(out: &mut Bytes, x: &Value)
    ensures spelled { Puts (value_bytes x.now) out.old out.new }
    ensures types { FitsSigned w64 x.now }
{
    out.extend(&x.to_be_bytes());
}

/// Puts a name's length and bytes.
pub fn put_name(out: &mut Bytes, name: &Name)
    ensures spelled { Puts (name_bytes name.now) out.old out.new }
    ensures types { is_name name.now ≡ true }
{
    let bytes = name.as_bytes();
    out.push(bytes.len() as u8);
    out.extend(bytes);
}

/// Puts a flag.
pub fn put_flag(out: &mut Bytes, flag: bool)
    ensures { Puts (flag_bytes flag) out.old out.new }
{
    if flag {
        out.push(1);
    } else {
        out.push(0);
    }
}

/// Puts an optional number; 65,535 where there is none.
pub fn put_option(out: &mut Bytes, n: Option<u16>)
    ensures { Puts (option_bytes n) out.old out.new }
{
    match n {
        None => put16(out, u16::MAX),
        Some(n) => put16(out, n),
    }
}
