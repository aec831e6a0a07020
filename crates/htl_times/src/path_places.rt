// The positions of a path, met without a pass over all modes and invocations for each of its rounds: the modes of a module stand
// together, and so do the invocations of a mode.
ghost use Rattle.std.specs.Prelude.{◌≡◌, ◌≤◌, ◌<◌, ◌+◌, ◌++◌, length, map, take};
ghost use Rattle.htl_model.specs.FrameTables.{IsFrame};
ghost use Rattle.htl_model.specs.Frames.{KeepsFrames, paths as paths_of, path_places};
ghost use Rattle.htl_model.specs.Selections.{invs_of};
ghost use Rattle.htl_times.specs.PathPlaces.{round_modes as round_modes_of, AreBegins, IsSurvey, run_places};

use htl_base::Time;
use htl_base::limits::{MAX_MODES, MAX_ROUNDS};
use htl_model::Tables;
use htl_model::frame::{Frame, Place, Round};
use htl_model::selections::{mode_at, mode_count};

/// A round with the modes of its module, which stand together.
#[derive(Clone, Copy)]
pub struct RoundModes {
    /// When it begins, in ticks from the frame's start.
    pub at: Time,
    /// The first mode.
    pub first: u16,
    /// How many there are.
    pub count: u32,
}

/// What the positions of all paths are read from.
#[derive(Clone, Copy)]
pub struct Survey {
    /// The rounds of a frame.
    pub rounds: [RoundModes; MAX_ROUNDS],
    /// How many rounds there are.
    pub round_count: usize,
    /// How many paths there are.
    pub paths: u32,
    /// Where the invocations of each mode begin, and behind the last mode where they end.
    pub begins: [usize; MAX_MODES + 1],
}

// A round with the modes of its module.
fn with_modes(t: &Tables, round: Round) -> RoundModes
    ensures { result ≡ round_modes_of t.now round }
{
    t.keeps_ranges();
    RoundModes {
        at: round.at,
        first: mode_at(t, round.unit, 0),
        count: mode_count(t, round.unit),
    }
}

// Rounds with the modes of their modules.
fn round_modes(t: &Tables, rounds: &[Round]) -> [RoundModes; MAX_ROUNDS]
    requires { length rounds.now ≤ 2048 }
    ensures { take (length rounds.now) result ≡ map (round_modes_of t.now) rounds.now }
{
    let mut table = [RoundModes {
        at: 0,
        first: 0,
        count: 0,
    }; MAX_ROUNDS];
    for k in 0..rounds.len() {
        table[k] = with_modes(t, rounds[k]);
    }
    table
}

// How many invocations a mode has.
fn inv_count(t: &Tables, mode: u16) -> usize
    ensures count { result ≡ length (invs_of t.now mode) }
    ensures few { result ≤ 2048 }
{
    t.keeps_ranges();
    let invs = t.parts().invs.as_slice();
    let mut n = 0;
    for k in 0..invs.len() {
        if invs[k].mode == mode {
            n += 1;
        }
    }
    n
}

// Where the invocations of each mode begin.
fn inv_begins(t: &Tables) -> [usize; MAX_MODES + 1]
    ensures { AreBegins t.now result (length t.now.modes) }
{
    t.keeps_ranges();
    let mut table = [0; MAX_MODES + 1];
    for m in 0..t.parts().modes.as_slice().len() {
        table[m + 1] = table[m] + inv_count(t, m as u16);
    }
    table
}

impl Survey {
    /// That of a frame. One pass over the modes for each round, and one over the invocations for each mode.
    pub fn new(t: &Tables, f: &Frame) -> Survey
        requires { IsFrame t.now f.now }
        ensures { IsSurvey t.now result }
    {
        Survey {
            rounds: round_modes(t, &f.rounds[..f.round_count]),
            round_count: f.round_count,
            paths: f.paths,
            begins: inv_begins(t),
        }
    }
}

// Writes the positions of a round with so many invocations, from `first` on, to the places from `n` on: the place behind the last.
fn put_round(first: usize, count: usize, at: Time, out: &mut [Place], n: usize) -> usize
    requires few { first + count ≤ 2048 }
    requires room { n + count ≤ length out.old }
    ensures front { take result out.new ≡ take n out.old ++ run_places first count at }
    ensures count { result ≡ n + count }
    ensures len { length out.new ≡ length out.old }
{
    for k in 0..count {
        out[n + k] = Place {
            inv: Some((first + k) as u16),
            at,
        };
    }
    n + count
}

/// Writes the positions of a path to the front, and answers how many there are. One step a round, and one a position.
pub fn put_path(t: &Tables, survey: &Survey, path: u32, out: &mut [Place]) -> usize
    requires limits { KeepsFrames t.now }
    requires survey { IsSurvey t.now survey.now }
    requires path { path < paths_of t.now }
    requires room { 128 ≤ length out.old }
    ensures places { take result out.new ≡ path_places t.now path }
    ensures count { result ≡ length (path_places t.now path) }
    ensures len { length out.new ≡ length out.old }
{
    t.keeps_ranges();
    let mut behind = survey.paths;
    let mut n = 0;
    for k in 0..survey.round_count {
        let RoundModes { at, first, count } = survey.rounds[k];
        behind /= count;
        let mode = first as usize + (path / behind % count) as usize;
        let begin = survey.begins[mode];
        n = put_round(begin, survey.begins[mode + 1] - begin, at, out, n);
    }
    n
}
