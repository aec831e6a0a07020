// The number of a list in its frame, and of its node.
ghost use Rattle.std.specs.Prelude.{◌≡◌, ◌≤◌, ◌<◌, ◌%◌, ℕ, suc, None, cond, eqb, drop, get_or, length};
ghost use Rattle.std.specs.List.{list_any};
ghost use Rattle.htl_model.specs.FrameRules.{KeptApart};
ghost use Rattle.htl_model.specs.Frames.{frame_limit, frame_of, starts, ways, nodes_of};
ghost use Rattle.htl_model.specs.Ranges.{AreInRange};
ghost use Rattle.htl_model.specs.Selected.{IsSelection};
ghost use Rattle.htl_refine.specs.BegunJobs.{choice_of};
ghost use Rattle.htl_runs.specs.lists.NextLists.{next_list};
ghost use Rattle.htl_machine.specs.Numbering.{IsNumbering};
ghost use Rattle.htl_machine.specs.StandingList.{node_by, number_by, next_at};
ghost use Rattle.htl_runs.specs.frames.RoundStarts.{some_round_begins as begins};

use htl_base::Time;
use htl_base::limits::MAX_STARTS;
use htl_model::Tables;
use htl_model::frame::Frame;
use htl_refine::{Selection, begun_choice};

/// The list of the processor that stands.
#[derive(Clone, Copy)]
pub struct ListAt {
    /// The node whose list it is.
    pub node: u32,
    /// Its number in the frame, from 0.
    pub number: usize,
}

/// The numbers of a frame by which list follows list.
#[derive(Clone, Copy)]
pub struct Numbering {
    /// The hyperperiod, in ticks; 0 without modules.
    pub frame: Time,
    // Its starts, in ticks, in front.
    starts: [Time; MAX_STARTS + 1],
    count: usize,
    // How many nodes are below a node behind each start.
    below: [u32; MAX_STARTS],
}

impl Numbering {
    /// The numbers of tables that keep the limits of frames. As costly as `Frame::survey`.
    pub fn survey(t: &Tables) -> Numbering
        requires { frame_limit t.now ≡ None }
        ensures { IsNumbering t.now result }
    {
        t.keeps_ranges();
        let frame = Frame::survey(t);
        let mut below = [0; MAX_STARTS];
        fill_below(&frame.radices[..frame.count], frame.nodes, &mut below);
        Numbering {
            frame: frame.starts[frame.count],
            starts: frame.starts,
            count: frame.count,
            below,
        }
    }

    /// Whether a list begins at an instant, in ticks: where a round of some root module does. It looks at the starts of a frame.
    pub fn begins(&self, at: Time) -> bool
        requires { self.now.count ≤ 33 }
        ensures { (t : Tables) → IsNumbering t self.now → AreInRange t → KeptApart t 12 → result ≡ begins t at }
    {
        if self.frame == 0 {
            return false;
        }
        is_among(&self.starts[..self.count], at % self.frame)
    }

    /// The list that begins at an instant, in ticks, behind the one that stood before it, by the modes at that instant.
    pub fn next(&self, t: &Tables, modes: &Selection, at: Time, last: Option<ListAt>) -> ListAt
        requires numbering { IsNumbering t.now self.now }
        requires some { 0 < frame_of t.now }
        requires there { next_list t.now at (number_by last) < length (starts t.now) }
        requires choice { choice_of t.now modes.now.modes (at % frame_of t.now) < 1024 }
        requires few { (next_at t.now modes.now.modes at last).node ≤ 4294967295 }
        ensures { result ≡ next_at t.now modes.now.modes at last }
    {
        let offset = at % self.frame;
        let choice = begun_choice(t, modes, offset);
        let first = first_behind(offset, last);
        ListAt {
            node: first.node + choice * (self.below[first.number] + 1),
            number: first.number,
        }
    }
}

// Whether an offset is one of the starts.
fn is_among(starts: &[Time], offset: Time) -> bool
    ensures { result ≡ list_any (λ a. eqb a offset) starts.now }
{
    starts.iter().any(|start| *start == offset)
}

// The list behind one, where the first of the choices is taken.
fn first_behind(offset: Time, last: Option<ListAt>) -> ListAt
    requires node { 0 < offset → node_by last ≤ 4294967294 }
    requires number { 0 < offset → number_by last ≤ 32 }
    ensures node { result.node ≡ cond (eqb offset 0) 0 (suc (node_by last)) }
    ensures number { result.number ≡ cond (eqb offset 0) 0 (suc (number_by last)) }
{
    if offset == 0 {
        return ListAt { node: 0, number: 0 };
    }
    match last {
        Some(list) => ListAt {
            node: list.node + 1,
            number: list.number + 1,
        },
        None => ListAt { node: 1, number: 1 },
    }
}

// How many nodes are below a node behind each start, where there are these choices at the starts, and so many nodes.
fn fill_below(radices: &[u32], nodes: u32, below: &mut [u32; MAX_STARTS])
    requires some { 0 < ways radices.now }
    requires nodes { nodes ≡ nodes_of radices.now }
    requires few { nodes ≤ 32768 }
    requires room { length radices.now ≤ 32 }
    ensures below { (j : ℕ) → j < length radices.now → get_or below.new j 0 ≡ nodes_of (drop (suc j) radices.now) }
    ensures small { (j : ℕ) → j < length radices.now → get_or below.new j 0 ≤ 32768 }
{
    let mut rest = nodes;
    for j in 0..radices.len() {
        rest = rest / radices[j] - 1;
        below[j] = rest;
    }
}
