// What tables say of single items and of frames: each call by itself.
ghost use Rattle.std.specs.Prelude.{◌≡◌, ◌<◌, true, None as NoLimit, length};
ghost use Rattle.htl_model.specs.Frames.{frame_limit, paths, starts};

use crate::asserts::holds;
use crate::texts::tables_of;
use htl_base::Time;
use htl_model::Tables;
use htl_samples::samples::{ITEMS, LOOPS};
use std::alloc::Global;

// ---- frames

fn start(t: &Tables, j: usize) -> Option<Time> {
    if let Ok(()) = t.frame_limits() {
        if j < t.starts() {
            return Some(t.start(j));
        }
    }
    None
}

// Whether a path and a start are there, in a frame that exceeds no limit.
fn is_on_path(t: &Tables, path: u32, j: usize) -> bool
    ensures limits { result ≡ true → frame_limit t.now ≡ NoLimit }
    ensures path { result ≡ true → path < paths t.now }
    ensures start { result ≡ true → j < length (starts t.now) }
{
    if let Ok(()) = t.frame_limits() {
        path < t.paths() && j < t.starts()
    } else {
        false
    }
}

fn node(t: &Tables, path: u32, j: usize) -> Option<u32> {
    if !is_on_path(t, path, j) {
        return None;
    }
    Some(t.node(path, j))
}

fn path_mode(t: &Tables, path: u32, j: usize, module: u16) -> Option<u16> {
    if !is_on_path(t, path, j) || module as usize >= t.parts().modules.as_slice().len() {
        return None;
    }
    Some(t.path_mode(path, j, module))
}

fn path_positions(t: &Tables, path: u32, j: usize) -> Option<usize> {
    if !is_on_path(t, path, j) {
        return None;
    }
    Some(t.path_positions(path, j))
}

// The position of this number among those that have begun at a start.
fn path_position(t: &Tables, path: u32, j: usize, p: usize) -> Option<(u16, Time)> {
    if !is_on_path(t, path, j) {
        return None;
    }
    let known = t.path_positions(path, j);
    if p < known {
        return Some(t.path_position(path, p));
    }
    None
}

// ---- items

// The mode of a root module in a selection.
fn root_mode(t: &Tables, selection: u32, module: u16) -> Option<u16> {
    if module as usize >= t.parts().modules.as_slice().len() {
        return None;
    }
    Some(t.root_mode(selection, module))
}

// The number of the function of an output of a concrete task.
fn output_function(t: &Tables, task: u16, output: u16) -> Option<u32> {
    let item = t.parts().tasks.as_slice().get(task as usize)?;
    if item.is_abstract || output as usize >= item.outputs.as_slice().len() {
        return None;
    }
    Some(t.output_function(task, output))
}

// The number of the function of a switch.
fn switch_function(t: &Tables, switch: u16) -> Option<u32> {
    if switch as usize >= t.parts().switches.as_slice().len() {
        return None;
    }
    Some(t.switch_function(switch))
}

// ---- tables

// The modes of both modules in each selection.
const MODES: &[(u32, u16, Option<u16>)] = &[
    (0, 0, Some(0)),
    (0, 1, Some(2)),
    (1, 0, Some(0)),
    (1, 1, Some(3)),
    (2, 0, Some(1)),
    (2, 1, Some(2)),
    (3, 0, Some(1)),
    (3, 1, Some(3)),
    (0, 2, None),
];

const OUTPUTS: &[(u16, u16, Option<u32>)] = &[
    (0, 0, Some(0)),
    (0, 1, Some(1)),
    (0, 2, None),
    (1, 0, None),
    (2, 0, Some(2)),
    (3, 0, None),
];

const SWITCHES: &[(u16, Option<u32>)] = &[(0, Some(3)), (1, Some(4)), (2, None)];

// The loops have the starts 0 and 10, one path and two nodes.
const STARTS: &[(usize, Option<Time>)] = &[(0, Some(0)), (1, Some(10)), (2, None)];

// A path and a start, and there: the node, the modes of both modules, and how many positions have begun.
type NodeRow = (
    u32,
    usize,
    Option<u32>,
    Option<u16>,
    Option<u16>,
    Option<usize>,
);

const NODES: &[NodeRow] = &[
    (0, 0, Some(0), Some(0), Some(1), Some(2)),
    (0, 1, Some(1), Some(0), Some(1), Some(3)),
    (0, 2, None, None, None, None),
    (1, 0, None, None, None, None),
];

// By start and position: the invocation, and when its round begins.
const POSITIONS: &[(usize, usize, Option<(u16, Time)>)] = &[
    (0, 0, Some((0, 0))),
    (0, 1, Some((1, 0))),
    (0, 2, None),
    (1, 2, Some((0, 10))),
    (1, 3, None),
];

fn has_modes(t: &Tables) -> bool {
    for (selection, module, mode) in MODES {
        if root_mode(t, *selection, *module) != *mode {
            return false;
        }
    }
    true
}

fn has_outputs(t: &Tables) -> bool {
    for (task, output, number) in OUTPUTS {
        if output_function(t, *task, *output) != *number {
            return false;
        }
    }
    true
}

fn has_switches(t: &Tables) -> bool {
    for (switch, number) in SWITCHES {
        if switch_function(t, *switch) != *number {
            return false;
        }
    }
    true
}

fn has_starts(t: &Tables) -> bool {
    for (j, at) in STARTS {
        if start(t, *j) != *at {
            return false;
        }
    }
    true
}

fn is_node(t: &Tables, row: &NodeRow) -> bool {
    let (path, j, number, first, second, count) = *row;
    node(t, path, j) == number
        && path_mode(t, path, j, 0) == first
        && path_mode(t, path, j, 1) == second
        && path_positions(t, path, j) == count
}

fn has_nodes(t: &Tables) -> bool {
    for row in NODES {
        if !is_node(t, row) {
            return false;
        }
    }
    true
}

fn has_positions(t: &Tables) -> bool {
    for (j, p, wanted) in POSITIONS {
        if path_position(t, 0, *j, *p) != *wanted {
            return false;
        }
    }
    true
}

fn read(alloc: Global, text: &str) -> Option<Tables> {
    tables_of(alloc, text.as_bytes())?.ok()
}

#[test]
fn items_have_their_numbers(rt: HostRuntime) {
    let t = read(rt.alloc(), ITEMS).expect(&rt, "tables");
    holds(&rt, has_modes(&t) && has_outputs(&t) && has_switches(&t));
}

#[test]
fn frames_have_their_starts_and_nodes(rt: HostRuntime) {
    let t = read(rt.alloc(), LOOPS).expect(&rt, "tables");
    holds(&rt, has_starts(&t) && has_nodes(&t) && has_positions(&t));
}
