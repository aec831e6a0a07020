//! The nodes of a frame: paths that are cut after a start, numbered in preorder.
ghost use Rattle.std.specs.Prelude.{◌≡◌, ◌≤◌, ◌<◌, ◌+◌, ◌-◌, ◌*◌, ◌%◌, length};
ghost use Rattle.htl_model.specs.Frames.{ways, nodes_of, node_of};

/// How many nodes there are with so many choices at each start.
pub fn node_count(radices: &[u32]) -> u32
    requires few { length radices.now ≤ 32 }
    requires some { 0 < ways radices.now }
    requires ways { ways radices.now ≤ 1024 }
    ensures count { result ≡ nodes_of radices.now }
{
    let mut n = 0u32;
    let mut front = 1u32;
    for i in 0..radices.len() {
        front *= radices[i];
        n += front;
    }
    n
}

/// The node of a path after start `j`, in preorder.
pub fn node_number(radices: &[u32], paths: u32, nodes: u32, path: u32, j: usize) -> u32
    requires within { j < length radices.now }
    requires paths { paths ≡ ways radices.now }
    requires some { 0 < paths }
    requires few { paths ≤ 1024 }
    requires nodes { nodes ≡ nodes_of radices.now }
    requires short { length radices.now ≤ 32 }
    ensures { result ≡ node_of radices.now path j }
{
    let mut behind = paths;
    let mut below = nodes;
    let mut n = 0u32;
    for i in 0..j {
        behind /= radices[i];
        below = below / radices[i] - 1;
        n += path / behind % radices[i] * (below + 1) + 1;
    }
    behind /= radices[j];
    below = below / radices[j] - 1;
    n + path / behind % radices[j] * (below + 1)
}
