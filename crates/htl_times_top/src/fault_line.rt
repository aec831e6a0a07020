// The lines that tell of answers.
ghost use Rattle.std.specs.Prelude.{◌≡◌};
ghost use Rattle.std.specs.Option.{option_copied};
ghost use Rattle.htl_open.specs.Lines.{Tells};
ghost use Rattle.htl_times_top.specs.Status.{fault_line as line_of};

use crate::Outcome;
use htl_edge::{LineBuffer, Sink, put_all};
use htl_model::Tables;
use htl_open::line::{plain_line, shelf_line};
use htl_open::object_line;

/// Tells of an answer other than Done, by its line. The line of a broken form rule has its names from `tables`.
pub fn report<E: Sink>(err: &mut E, tables: Option<&Tables>, outcome: &Outcome)
    ensures told { Tells (E.written err.old) (E.written err.new) (E.faults err.old) (E.faults err.new) (line_of (option_copied tables.entry) outcome.now) }
    ensures quiet { outcome.now ≡ Outcome.Done → E.written err.new ≡ E.written err.old }
{
    if *outcome == Outcome::Done {
        return;
    }
    let line = fault_line(tables, outcome);
    let _ = put_all(err, line.as_bytes());
}

// The line that tells of an answer; empty for Done.
fn fault_line(tables: Option<&Tables>, outcome: &Outcome) -> LineBuffer
    ensures { result ≡ line_of (option_copied tables.entry) outcome.now }
{
    match outcome {
        Outcome::Done => LineBuffer::new(),
        Outcome::Usage => plain_line(b"htl-times: usage\n"),
        Outcome::Object(fault) => object_line(tables, fault),
        Outcome::Shelf(why) => shelf_line(why),
        Outcome::Write => plain_line(b"htl: write\n"),
        Outcome::Memory => plain_line(b"htl: memory\n"),
    }
}
