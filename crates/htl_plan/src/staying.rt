// The frame in which every module stays in its mode: its path and its jobs.
ghost use Rattle.std.specs.Prelude.{◌≡◌, ◌≤◌, None, length, take};
ghost use Rattle.htl_model.specs.Frames.{frame_limit};
ghost use Rattle.htl_model.specs.FrameRules.{KeptApart};
ghost use Rattle.htl_model.specs.FrameTables.{IsFrame};
ghost use Rattle.htl_model.specs.Selected.{IsSelection};
ghost use Rattle.htl_refine.specs.FrameRuns.{frame_jobs, path_of as path_of_modes};

use htl_model::Tables;
use htl_model::frame::Frame;
use htl_refine::{Selection, begun_choice, derive_begun};
use htl_walk::Job;

/// Writes the jobs of the frame to the front, start by start, and answers how many positions there are. It takes no memory.
pub(crate) fn staying_jobs(t: &Tables, f: &Frame, s: &Selection, out: &mut [Job; 128]) -> usize
    requires limits { frame_limit t.now ≡ None }
    requires frame { IsFrame t.now f.now }
    requires kept { KeptApart t.now 16 }
    requires selection { IsSelection t.now s.now.modes }
    ensures jobs { take result out.new ≡ frame_jobs t.now (λ a. s.now.modes) }
    ensures count { result ≡ length (frame_jobs t.now (λ a. s.now.modes)) }
    ensures few { result ≤ 128 }
{
    t.keeps_ranges();
    let mut n = 0;
    for j in 0..f.count {
        n = derive_begun(t, s, f.starts[j], out, n);
    }
    n
}

/// The number of its path, by the choice of modes at each start.
pub(crate) fn staying_path(t: &Tables, f: &Frame, s: &Selection) -> u32
    requires limits { frame_limit t.now ≡ None }
    requires frame { IsFrame t.now f.now }
    requires selection { IsSelection t.now s.now.modes }
    ensures { result ≡ path_of_modes t.now (λ a. s.now.modes) }
{
    t.keeps_ranges();
    let mut path = 0u32;
    for j in 0..f.count {
        path = path * f.radices[j] + begun_choice(t, s, f.starts[j]);
    }
    path
}
