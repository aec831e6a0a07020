//! Frames: the rounds of root modules of different periods, up to the least common multiple of these.
ghost use Rattle.std.specs.Prelude.{◌≡◌, ◌<◌, ◌+◌, ◌-◌, ◌*◌, Some, None, get_or, length};
ghost use Rattle.htl_model.specs.Frames.{frame_limit, hyper as hyper_of, path_positions as path_positions_of, path_mode as path_mode_of, node as node_in, path_places, no_place, number_or, starts as starts_of, paths as paths_of, nodes as nodes_in};
ghost use Rattle.htl_model.specs.FrameTables.{IsFrame};

use crate::Tables;
use crate::nodes::{node_count, node_number};
use crate::places::{fill_places, known_by, mode_from};
use crate::rounds::{fill_radices, fill_roots, fill_rounds, round_choices, unit_period};
use crate::starts::{fill_starts, hyperperiod};
use htl_base::Time;
use htl_base::limits::{MAX_MODULES, MAX_POSITIONS, MAX_ROUNDS, MAX_STARTS};

/// A round of a root module.
#[derive(Clone, Copy)]
pub struct Round {
    /// When it begins, in ticks from the frame's start.
    pub at: Time,
    /// The module.
    pub unit: u16,
}

/// What stands at a position of a path, and when its round begins.
#[derive(Clone, Copy)]
pub struct Place {
    /// The invocation.
    pub inv: Option<u16>,
    /// When its round begins, in ticks from the frame's start.
    pub at: Time,
}

/// The numbers of a frame, from which paths, nodes and positions are read.
#[derive(Clone, Copy)]
pub struct Frame {
    /// The starts, and behind them the frame's end, in ticks.
    pub starts: [Time; MAX_STARTS + 1],
    /// How many starts there are.
    pub count: usize,
    /// How many choices of modes there are at each start.
    pub radices: [u32; MAX_STARTS],
    /// The rounds, by start and then by module.
    pub rounds: [Round; MAX_ROUNDS],
    /// How many rounds there are.
    pub round_count: usize,
    /// How many paths there are.
    pub paths: u32,
    /// How many nodes there are.
    pub nodes: u32,
}

impl Frame {
    /// The frame of tables that keep the limits of frames. It looks for the least next round of each root module at each
    /// start, and passes over all modes for each round: about a million steps at the limits. Where more than one answer on
    /// a frame is wanted, make it once and ask it.
    pub fn survey(t: &Tables) -> Frame
        requires { frame_limit t.now ≡ None }
        ensures { IsFrame t.now result }
    {
        t.keeps_ranges();
        let mut table = [0; MAX_MODULES];
        let mut starts = [0; MAX_STARTS + 1];
        let mut rounds = [Round { at: 0, unit: 0 }; MAX_ROUNDS];
        let mut radices = [0; MAX_STARTS];
        let modules = fill_roots(t, &mut table);
        let roots = &table[..modules];
        if modules == 0 {
            return Frame {
                starts,
                count: 0,
                radices,
                rounds,
                round_count: 0,
                paths: 0,
                nodes: 0,
            };
        }
        let end = hyperperiod(t, roots);
        let count = fill_starts(t, roots, end, &mut starts);
        let round_count = fill_rounds(t, roots, &starts[..count], &mut rounds);
        fill_radices(t, roots, &starts[..count], &mut radices);
        let paths = round_choices(t, &rounds[..round_count]) as u32;
        let nodes = node_count(&radices[..count]);
        Frame {
            starts,
            count,
            radices,
            rounds,
            round_count,
            paths,
            nodes,
        }
    }

    /// How many positions of a path have begun at a start, both in range. One pass over the path's rounds, each with the
    /// modes and invocations of the tables.
    pub fn path_positions(&self, t: &Tables, path: u32, j: usize) -> usize
        requires frame { IsFrame t.now self.now }
        requires path { path < paths_of t.now }
        requires start { j < length (starts_of t.now) }
        ensures { result ≡ path_positions_of t.now path j }
    {
        t.keeps_ranges();
        let mut places = [Place { inv: None, at: 0 }; MAX_POSITIONS];
        let count = fill_places(
            t,
            &self.rounds[..self.round_count],
            self.paths,
            path,
            &mut places,
        );
        known_by(&places[..count], self.starts[j])
    }

    /// The root invocation at a position of a path, both in range, and when its round begins. As costly as
    /// `path_positions`.
    pub fn path_position(&self, t: &Tables, path: u32, p: usize) -> (u16, Time)
        requires frame { IsFrame t.now self.now }
        requires path { path < paths_of t.now }
        requires position { p < length (path_places t.now path) }
        ensures at { result.1 ≡ (get_or (path_places t.now path) p no_place).at }
        ensures inv { result.0 ≡ number_or (get_or (path_places t.now path) p no_place).inv }
    {
        t.keeps_ranges();
        let mut places = [Place { inv: None, at: 0 }; MAX_POSITIONS];
        let _count = fill_places(
            t,
            &self.rounds[..self.round_count],
            self.paths,
            path,
            &mut places,
        );
        (places[p].inv.unwrap_or(0), places[p].at)
    }

    /// The node of a path after a start, both in range, in preorder. As many steps as there are starts before it.
    pub fn node(&self, t: &Tables, path: u32, j: usize) -> u32
        requires frame { IsFrame t.now self.now }
        requires path { path < paths_of t.now }
        requires start { j < length (starts_of t.now) }
        ensures { result ≡ node_in t.now path j }
    {
        node_number(&self.radices[..self.count], self.paths, self.nodes, path, j)
    }

    /// The mode of a root module in a path at a start, all in range: that of its last round that has begun. One pass over
    /// the rounds, each with the modes of the tables.
    pub fn path_mode(&self, t: &Tables, path: u32, j: usize, module: u16) -> u16
        requires frame { IsFrame t.now self.now }
        requires path { path < paths_of t.now }
        requires start { j < length (starts_of t.now) }
        requires within { «module» < length t.now.modules }
        ensures { result ≡ path_mode_of t.now path j «module» }
    {
        t.keeps_ranges();
        let period = unit_period(t, module) as Time;
        let at = self.starts[j] / period * period;
        mode_from(
            t,
            &self.rounds[..self.round_count],
            self.paths,
            path,
            module,
            at,
        )
    }
}

impl Tables {
    /// The hyperperiod: the least common multiple of the periods of the root modules, in ticks; None exactly where there
    /// is no module.
    pub fn hyper(&self) -> Option<Time>
        requires { frame_limit self.now ≡ None }
        ensures { result ≡ hyper_of self.now }
    {
        self.keeps_ranges();
        let mut table = [0; MAX_MODULES];
        let count = fill_roots(self, &mut table);
        if count == 0 {
            return None;
        }
        Some(hyperperiod(self, &table[..count]))
    }

    /// How many starts a frame has.
    pub fn starts(&self) -> usize
        requires { frame_limit self.now ≡ None }
        ensures { result ≡ length (starts_of self.now) }
    {
        Frame::survey(self).count
    }

    /// A start of a frame, which is in range.
    pub fn start(&self, j: usize) -> Time
        requires limits { frame_limit self.now ≡ None }
        requires start { j < length (starts_of self.now) }
        ensures { result ≡ get_or (starts_of self.now) j 0 }
    {
        Frame::survey(self).starts[j]
    }

    /// How many paths there are through a frame.
    pub fn paths(&self) -> u32
        requires { frame_limit self.now ≡ None }
        ensures { result ≡ paths_of self.now }
    {
        Frame::survey(self).paths
    }

    /// How many nodes there are.
    pub fn nodes(&self) -> u32
        requires { frame_limit self.now ≡ None }
        ensures { result ≡ nodes_in self.now }
    {
        Frame::survey(self).nodes
    }
    /// The node of a path after a start, both in range, in preorder. As costly as `Frame::survey`, as are all calls here.
    pub fn node(&self, path: u32, j: usize) -> u32
        requires limits { frame_limit self.now ≡ None }
        requires path { path < paths_of self.now }
        requires start { j < length (starts_of self.now) }
        ensures { result ≡ node_in self.now path j }
    {
        Frame::survey(self).node(self, path, j)
    }

    /// The mode of a root module in a path at a start, all in range: that of its last round that has begun.
    pub fn path_mode(&self, path: u32, j: usize, module: u16) -> u16
        requires limits { frame_limit self.now ≡ None }
        requires path { path < paths_of self.now }
        requires start { j < length (starts_of self.now) }
        requires within { «module» < length self.now.modules }
        ensures { result ≡ path_mode_of self.now path j «module» }
    {
        Frame::survey(self).path_mode(self, path, j, module)
    }

    /// How many positions of a path have begun at a start, both in range.
    pub fn path_positions(&self, path: u32, j: usize) -> usize
        requires limits { frame_limit self.now ≡ None }
        requires path { path < paths_of self.now }
        requires start { j < length (starts_of self.now) }
        ensures { result ≡ path_positions_of self.now path j }
    {
        Frame::survey(self).path_positions(self, path, j)
    }

    /// The root invocation at a position of a path, both in range, and when its round begins.
    pub fn path_position(&self, path: u32, p: usize) -> (u16, Time)
        requires limits { frame_limit self.now ≡ None }
        requires path { path < paths_of self.now }
        requires position { p < length (path_places self.now path) }
        ensures at { result.1 ≡ (get_or (path_places self.now path) p no_place).at }
        ensures inv { result.0 ≡ number_or (get_or (path_places self.now path) p no_place).inv }
    {
        Frame::survey(self).path_position(self, path, p)
    }
}
