// The text: a line for each invocation, and that of the frame.
ghost use Rattle.std.specs.Prelude.{◌≡◌, ◌≤◌, ◌++◌, length, get_or, None};
ghost use Rattle.htl_console.specs.Listing.{all_lines};
ghost use Rattle.htl_edge.specs.Content.{Puts};
ghost use Rattle.htl_model.specs.Frames.{frame_limit};
ghost use Rattle.htl_times_top.specs.Texts.{time_line, frame_text, times_text};

use crate::lines::{frame_line, line_end, time_front};
use htl_edge::{Failed, Sink, put_all};
use htl_model::frame::Frame;
use htl_model::{Inv, Tables};
use htl_times::Greatest;

// Writes the line of an invocation, in two pieces.
fn put_time<W: Sink>(
    sink: &mut W,
    t: &Tables,
    inv: u16,
    item: &Inv,
    row: Option<Greatest>,
) -> Result<(), Failed>
    ensures { Puts (W.written sink.old) (W.written sink.new) (W.faults sink.old) (W.faults sink.new) (time_line t.now row inv item.now) result }
{
    let front = time_front(t, inv, item);
    if let Err(failed) = put_all(sink, front.as_bytes()) {
        return Err(failed);
    }
    let end = line_end(t, inv, item, row);
    put_all(sink, end.as_bytes())
}

// Writes the lines of all invocations.
fn put_rows<W: Sink>(
    sink: &mut W,
    t: &Tables,
    invs: &[Inv],
    rows: &[Option<Greatest>],
) -> Result<(), Failed>
    requires few { length invs.now ≤ 65536 }
    requires count { length rows.now ≡ length invs.now }
    ensures { Puts (W.written sink.old) (W.written sink.new) (W.faults sink.old) (W.faults sink.new)
        (all_lines (λ i x. time_line t.now (get_or rows.now i None) i x) invs.now) result }
{
    for k in 0..invs.len() {
        if let Err(failed) = put_time(sink, t, k as u16, &invs[k], rows[k]) {
            return Err(failed);
        }
    }
    Ok(())
}

// Writes the line of the frame, with zeros where there is no path.
fn put_frame<W: Sink>(sink: &mut W, t: &Tables, busiest: Option<Greatest>) -> Result<(), Failed>
    requires { frame_limit t.now ≡ None }
    ensures { Puts (W.written sink.old) (W.written sink.new) (W.faults sink.old) (W.faults sink.new) (frame_text t.now busiest) result }
{
    let line = match busiest {
        Some(path) => frame_line(t.hyper().unwrap_or(0), Frame::survey(t).paths, path),
        None => frame_line(0, 0, Greatest { ticks: 0, path: 0 }),
    };
    put_all(sink, line.as_bytes())
}

/// Writes the text of the latest finishes, of which there is a row for each invocation, and of the busiest path. It takes no memory.
/// After `Failed`, which comes only where the sink counted a fault, a prefix was written.
pub fn put_times<W: Sink>(
    sink: &mut W,
    t: &Tables,
    rows: &[Option<Greatest>],
    busiest: Option<Greatest>,
) -> Result<(), Failed>
    requires limits { frame_limit t.now ≡ None }
    requires count { length rows.now ≡ length t.now.invs }
    ensures { Puts (W.written sink.old) (W.written sink.new) (W.faults sink.old) (W.faults sink.new) (times_text t.now rows.now busiest) result }
{
    t.keeps_ranges();
    if let Err(failed) = put_rows(sink, t, t.parts().invs.as_slice(), rows) {
        return Err(failed);
    }
    put_frame(sink, t, busiest)
}
