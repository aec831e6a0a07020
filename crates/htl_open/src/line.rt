// Lines of a text and numbers, of a broken form rule, and of a file that isn't had.
ghost use Rattle.std.specs.Prelude.{◌≡◌, ◌++◌, ◌≤◌, codes, decimal, length};
ghost use Rattle.std.specs.Option.{option_copied};
ghost use Rattle.htl_open.specs.Lines.{form_text, place_in, shelf_line};

use crate::ShelfCause;
use crate::place::place;
use htl_edge::LineBuffer;
use htl_model::{FormFault, Tables};

/// The text alone.
pub fn plain_line(text: &[u8]) -> LineBuffer
    requires { length text.now ≤ 64 }
    ensures text { result ≡ text.now }
    ensures short { length result ≤ 64 }
{
    let mut line = LineBuffer::new();
    line.text(text);
    line
}

/// The text, a number and a line feed.
pub fn numbered_line(text: &[u8], number: u64) -> LineBuffer
    requires { length text.now ≤ 64 }
    ensures { result ≡ text.now ++ decimal number ++ codes "\n" }
{
    let mut line = LineBuffer::new();
    line.text(text);
    line.number(number);
    line.text(b"\n");
    line
}

/// A text of at most 23 bytes, and then the broken form rule, its place and its two numbers.
pub fn form_text(text: &[u8], tables: Option<&Tables>, fault: &FormFault) -> LineBuffer
    requires { length text.now ≤ 23 }
    ensures { result ≡ text.now ++ form_text (option_copied tables.entry) fault.now }
{
    let place = place_of(tables, fault);
    let mut line = LineBuffer::new();
    line.text(text);
    line.number(fault.rule as u64);
    line.text(b" at ");
    line.text(place.as_bytes());
    line.text(b" have ");
    line.number(fault.have);
    line.text(b" need ");
    line.number(fault.need);
    line.text(b"\n");
    line
}

// The place of a fault by the names of tables; nothing where there are none.
fn place_of(tables: Option<&Tables>, fault: &FormFault) -> LineBuffer
    ensures text { result ≡ place_in (option_copied tables.entry) fault.now }
    ensures short { length result ≤ 146 }
{
    match tables {
        Some(t) => place(t, fault),
        None => LineBuffer::new(),
    }
}

/// The line of a file that the shelf didn't give.
pub fn shelf_line(cause: &ShelfCause) -> LineBuffer
    ensures { result ≡ shelf_line cause.now }
{
    match cause {
        ShelfCause::Failed => plain_line(b"htl: shelf failed\n"),
        ShelfCause::TooLong { seen } => numbered_line(b"htl: shelf too-long ", *seen),
    }
}
