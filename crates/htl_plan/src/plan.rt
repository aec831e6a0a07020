// The plan of a selection of running modes.
ghost use Rattle.std.specs.Prelude.{◌≡◌, None, IfOk, length};
ghost use Rattle.htl_edge.specs.Content.{Puts};
ghost use Rattle.htl_model.specs.Selected.{IsSelection};
ghost use Rattle.htl_plan.specs.Plans.{plan_text};

use crate::plan_lists::write_frame;
use crate::staying::{staying_jobs, staying_path};
use htl_base::limits::MAX_POSITIONS;
use htl_base::{Memory, Seq};
use htl_console::line_plan;
use htl_edge::{Failed, Sink};
use htl_load::Loaded;
use htl_model::Tables;
use htl_model::frame::Frame;
use htl_refine::Selection;
use htl_walk::Job;
use std::alloc::Global;

/// A selection with an entry for each module, each of them none.
pub fn no_modes(alloc: Global, t: &Tables) -> Result<Selection, Memory>
    ensures { IfOk result (λ s. length s.modes ≡ length t.now.modules) }
{
    match vec![in alloc; None; t.parts().modules.as_slice().len()] {
        Ok(modes) => Ok(Selection {
            modes: Seq::new(modes),
        }),
        Err(_) => Err(Memory),
    }
}

/// Writes the plan of a selection: the slices and finishes of the frame in which every module stays in its mode and every job takes its
/// worst case, and a last line. Without modules there is no frame, and the last line alone.
pub fn write_plan<W: Sink>(out: &mut W, l: &Loaded, s: &Selection) -> Result<(), Failed>
    requires { IsSelection l.now.tables s.now.modes }
    ensures { Puts (W.written out.old) (W.written out.new) (W.faults out.old) (W.faults out.new) (plan_text l.now.tables l.now.schedules s.now.modes) result }
{
    let t = l.tables();
    let Some(end) = t.hyper() else {
        return line_plan(out, 0, 0, 0);
    };
    let f = Frame::survey(t);
    let mut jobs = [Job::ABSENT; MAX_POSITIONS];
    let count = staying_jobs(t, &f, s, &mut jobs);
    let path = staying_path(t, &f, s);
    write_frame(out, l, &f, path, &jobs[..count], end)
}
