// The latest finish of each invocation over all paths of a frame.
ghost use Rattle.std.specs.Prelude.{◌≡◌, ◌≤◌, ◌<◌, ◌+◌, ℕ, length, get_or, None};
ghost use Rattle.htl_model.specs.FrameRules.{KeptApart};
ghost use Rattle.htl_model.specs.FrameTables.{IsFrame};
ghost use Rattle.htl_model.specs.Frames.{frame_limit, paths as paths_of, nodes as nodes_of_frame, path_places};
ghost use Rattle.htl_walk.specs.NodeWalks.{AreWalkable, instrs_of};
ghost use Rattle.htl_times.specs.Busy.{IsBusiestOf, busy as busy_of};
ghost use Rattle.htl_times.specs.Noting.{AreEmpty, AreWorstFinishes, AreBestBefore, IsToldBy, rows_after, BusyBefore, IsBest};
ghost use Rattle.htl_times.specs.PathPlaces.{IsSurvey};
ghost use Rattle.htl_times.specs.Response.{IsLatestOf};

use crate::Greatest;
use crate::greatest::greater;
use crate::path_places::{Survey, put_path};
use crate::path_walk::{PathLists, path_finishes};
use htl_base::Time;
use htl_base::limits::MAX_POSITIONS;
use htl_model::Tables;
use htl_model::frame::{Frame, Place};
use htl_walk::Schedule;

// What a position tells: its invocation, and after how many ticks of its round it finishes.
fn told(place: Place, finish: Option<Time>) -> Option<(u16, Time)>
    ensures { IsToldBy place finish result }
{
    match (place.inv, finish) {
        (Some(inv), Some(at)) => {
            if at < place.at {
                None
            } else {
                Some((inv, at - place.at))
            }
        }
        _ => None,
    }
}

// Notes what a position tells.
fn note(rows: &mut [Option<Greatest>], path: u32, told: Option<(u16, Time)>)
    ensures { rows.new ≡ rows_after rows.old path told }
{
    if let Some((inv, ticks)) = told {
        let k = inv as usize;
        if k < rows.len() {
            rows[k] = greater(rows[k], ticks, path);
        }
    }
}

// Notes what the positions of a path tell, which finish so.
fn note_places(
    p: PathLists<'_>,
    places: &[Place],
    finish: &[Option<Time>],
    rows: &mut [Option<Greatest>],
)
    requires places { places.now ≡ path_places p.t.now p.path }
    requires same { length finish.now ≡ length places.now }
    requires finishes { AreWorstFinishes p.t.now (instrs_of p.lists.now) p.path finish.now }
    requires best { AreBestBefore p.t.now (instrs_of p.lists.now) p.path rows.old }
    ensures best { AreBestBefore p.entry.t.now (instrs_of p.entry.lists.now) (p.entry.path + 1) rows.new }
    ensures len { length rows.new ≡ length rows.old }
{
    for k in 0..places.len() {
        note(rows, p.path, told(places[k], finish[k]));
    }
}

// Notes what a path tells, and answers how long it is busy.
fn note_path(p: PathLists<'_>, rows: &mut [Option<Greatest>]) -> u64
    requires frame { IsFrame p.t.now p.f.now }
    requires survey { IsSurvey p.t.now p.survey.now }
    requires walkable { AreWalkable p.t.now }
    requires path { p.path < paths_of p.t.now }
    requires lists { length p.lists.now ≡ nodes_of_frame p.t.now }
    requires best { AreBestBefore p.t.now (instrs_of p.lists.now) p.path rows.old }
    ensures best { AreBestBefore p.entry.t.now (instrs_of p.entry.lists.now) (p.entry.path + 1) rows.new }
    ensures busy { result ≡ busy_of p.entry.t.now p.entry.path }
    ensures len { length rows.new ≡ length rows.old }
{
    let mut places = [Place { inv: None, at: 0 }; MAX_POSITIONS];
    let count = put_path(p.t, p.survey, p.path, &mut places);
    let mut finish = [None; MAX_POSITIONS];
    let busy = path_finishes(p, &places[..count], &mut finish[..count]);
    note_places(p, &places[..count], &finish[..count], rows);
    busy
}

// Notes what all paths tell, and answers which is the busiest.
fn note_paths(t: &Tables, lists: &[Schedule], rows: &mut [Option<Greatest>]) -> Option<Greatest>
    requires limits { frame_limit t.now ≡ None }
    requires walkable { AreWalkable t.now }
    requires lists { length lists.now ≡ nodes_of_frame t.now }
    requires empty { AreEmpty rows.old }
    ensures best { AreBestBefore t.now (instrs_of lists.now) (paths_of t.now) rows.new }
    ensures busiest { IsBest (BusyBefore t.now (paths_of t.now)) result }
    ensures len { length rows.new ≡ length rows.old }
{
    let f = Frame::survey(t);
    let survey = Survey::new(t, &f);
    let mut busiest = None;
    for path in 0..f.paths {
        let here = PathLists {
            t,
            f: &f,
            survey: &survey,
            lists,
            path,
        };
        let busy = note_path(here, rows);
        busiest = greater(busiest, busy, path);
    }
    busiest
}

/// The latest finish of each invocation of tables that keep the form rules 1 and 3 to 12 and the limits of frames, over all paths by
/// these lists, of which there is one for each node; and the busiest path.
pub fn note_tables(
    t: &Tables,
    lists: &[Schedule],
    rows: &mut [Option<Greatest>],
) -> Option<Greatest>
    requires limits { frame_limit t.now ≡ None }
    requires formed { KeptApart t.now 12 }
    requires lists { length lists.now ≡ nodes_of_frame t.now }
    requires empty { AreEmpty rows.old }
    ensures latest { (i : ℕ) → i < length rows.old → IsLatestOf t.now (instrs_of lists.now) i (get_or rows.new i None) }
    ensures busiest { IsBusiestOf t.now result }
    ensures len { length rows.new ≡ length rows.old }
{
    t.keeps_ranges();
    note_paths(t, lists, rows)
}
