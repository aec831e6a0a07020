// The lines of invocations and of the frame.
ghost use Rattle.std.specs.Prelude.{◌≡◌, ◌≤◌, ◌+◌, ◌++◌, length};
ghost use Rattle.htl_base.specs.declared.limits.TheConstants as limit;
ghost use Rattle.htl_console.specs.Names.{inv_name};
ghost use Rattle.htl_times_top.specs.Texts.{time_front, done_end, within_end, end_of, frame_line};

use htl_base::Time;
use htl_edge::LineBuffer;
use htl_model::lookup::{mode_module, task_worst};
use htl_model::window::{release, window_end};
use htl_model::{Inv, Tables};
use htl_open::{mode_name, module_name, task_name};
use htl_times::{Greatest, root_of};

// Adds `MODULE.MODE.TASK` of an invocation, or its number where there is none: at most 146 bytes.
fn put_name(line: &mut LineBuffer, t: &Tables, inv: u16)
    requires room { length line.old + 146 ≤ limit.MAX_LINE }
    ensures bytes { line.new ≡ line.old ++ inv_name t.now inv }
    ensures len { length line.new ≤ length line.old + 146 }
{
    let Some(item) = t.parts().invs.as_slice().get(inv as usize) else {
        line.number(inv as u64);
        return;
    };
    line.text(module_name(t, mode_module(t, item.mode) as usize));
    line.text(b".");
    line.text(mode_name(t, item.mode as usize));
    line.text(b".");
    line.text(task_name(t, inv as usize));
}

/// The name, the worst case and the window of an invocation.
pub fn time_front(t: &Tables, inv: u16, item: &Inv) -> LineBuffer
    ensures { result ≡ time_front t.now inv item.now }
{
    let mut line = LineBuffer::new();
    line.text(b"time ");
    put_name(&mut line, t, inv);
    line.text(b" worst ");
    line.number(task_worst(t, item.task) as u64);
    line.text(b" window ");
    line.number(release(t, item));
    line.text(b" ");
    line.number(window_end(t, item));
    line
}

// When a root invocation is done at the latest, what is left to its window's end, and the first such path.
fn done_end(end: Time, row: Option<Greatest>) -> LineBuffer
    ensures { result ≡ done_end end row }
{
    let mut line = LineBuffer::new();
    if let Some(latest) = row {
        line.text(b" done ");
        line.number(latest.ticks);
        line.text(b" left ");
        line.number(end.saturating_sub(latest.ticks));
        line.text(b" path ");
        line.number(latest.path as u64);
    }
    line.text(b"\n");
    line
}

// The root invocation in whose place an invocation can stand.
fn within_end(t: &Tables, inv: u16) -> LineBuffer
    ensures { result ≡ within_end t.now inv }
{
    let mut line = LineBuffer::new();
    line.text(b" within ");
    if let Some(root) = root_of(t, inv) {
        put_name(&mut line, t, root);
    }
    line.text(b"\n");
    line
}

/// The end of the line of an invocation, by its row.
pub fn line_end(t: &Tables, inv: u16, item: &Inv, row: Option<Greatest>) -> LineBuffer
    ensures { result ≡ end_of t.now inv item.now row }
{
    match item.parent {
        None => done_end(window_end(t, item), row),
        Some(_) => within_end(t, inv),
    }
}

/// The line of a frame of so many ticks and paths, with its busiest path.
pub fn frame_line(ticks: Time, paths: u32, busiest: Greatest) -> LineBuffer
    ensures { result ≡ frame_line ticks paths busiest }
{
    let mut line = LineBuffer::new();
    line.text(b"frame ");
    line.number(ticks);
    line.text(b" paths ");
    line.number(paths as u64);
    line.text(b" busy ");
    line.number(busiest.ticks);
    line.text(b" path ");
    line.number(busiest.path as u64);
    line.text(b"\n");
    line
}
