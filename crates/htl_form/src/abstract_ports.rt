// Which ports abstract invocations write, and the test of the rule on them.
ghost use Rattle.std.specs.Prelude.{◌≡◌, ◌≤◌, ◌<◌, ◌||◌, ℕ, false, get_or, length, slice_get, Some};
ghost use Rattle.std.specs.List.{list_any};
ghost use Rattle.htl_model.specs.Ranges.{AreInRange};
ghost use Rattle.htl_model.specs.PortWriters.{is_port};
ghost use Rattle.htl_form.specs.AbstractWriters.{is_abstractly_written, MarksPorts};
ghost use Rattle.htl_form.specs.EndFaults.{abstract_read_fault as abstract_read_fault_of};

use htl_base::limits::MAX_PORTS;
use htl_model::lookup::is_concrete;
use htl_model::{End, Inv, Tables};

/// Whether an abstract invocation writes a port, for each port that tables can have.
#[derive(Drop)]
pub struct AbstractPorts {
    pub marks: [bool; MAX_PORTS],
}

fn mark(marks: &mut [bool; MAX_PORTS], end: End)
    ensures { (p : ℕ) → p < 4096 → get_or marks.new p false ≡ (get_or marks.old p false || is_port p end) }
{
    if let End::Port { port } = end {
        if (port as usize) < marks.len() {
            marks[port as usize] = true;
        }
    }
}

// Marks the ports among the ends.
fn mark_all(marks: &mut [bool; MAX_PORTS], ends: &[End])
    ensures { (p : ℕ) → p < 4096 → get_or marks.new p false ≡ (get_or marks.old p false || list_any (is_port p) ends.now) }
{
    for k in 0..ends.len() {
        mark(marks, ends[k]);
    }
}

impl AbstractPorts {
    /// The marks of these tables.
    pub fn of(t: &Tables) -> AbstractPorts
        ensures { MarksPorts (is_abstractly_written t.now) result.marks }
    {
        let invs = t.parts().invs.as_slice();
        let mut marks = [false; MAX_PORTS];
        for k in 0..invs.len() {
            let inv = &invs[k];
            if !is_concrete(t, inv) {
                mark_all(&mut marks, inv.writes.as_slice());
            }
        }
        AbstractPorts { marks }
    }
}

fn is_marked(t: &Tables, ports: &AbstractPorts, port: u16) -> bool
    requires { MarksPorts (is_abstractly_written t.now) ports.now.marks }
    ensures { result ≡ is_abstractly_written t.now port }
{
    t.keeps_ranges();
    if (port as usize) < ports.marks.len() {
        ports.marks[port as usize]
    } else {
        false
    }
}

/// Rule 10 at an input and its place.
pub fn abstract_read_fault(
    t: &Tables,
    ports: &AbstractPorts,
    inv: &Inv,
    j: usize,
    end: End,
) -> Option<(u64, u64)>
    requires { MarksPorts (is_abstractly_written t.now) ports.now.marks }
    ensures { result ≡ abstract_read_fault_of t.now inv.now j end }
{
    match end {
        End::Comm { .. } => None,
        End::Port { port } => if is_concrete(t, inv) && is_marked(t, ports, port) {
            Some((j as u64, 0))
        } else {
            None
        },
    }
}
