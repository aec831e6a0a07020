// The writer of each port.
ghost use Rattle.std.specs.Prelude.{◌≡◌, ◌<◌, ◌≤◌, ◌&&◌, ℕ, cond, length, get_or, replicate, Some, None, IfOk};
ghost use Rattle.htl_base.specs.declared.limits.TheConstants as limit;
ghost use Rattle.htl_emach.specs.Indices.{port_writers, is_of, goes_to, entered};

use htl_base::Seq;
use htl_model::{End, Inv, Port, Tables};
use std::alloc::{AllocError, Global};

/// The writer of each port in the port's own mode, and the place of its output: one pass over all outputs, from the last
/// invocation to the first, so that the first of several writers stays.
pub(crate) fn port_writers(alloc: Global, t: &Tables) -> Result<Seq<Option<(u16, u16)>>, AllocError>
    ensures { IfOk result (λ xs. xs ≡ port_writers t.now) }
{
    t.keeps_ranges();
    let parts = t.parts();
    let ports = parts.ports.as_slice();
    let invs = parts.invs.as_slice();
    let mut list = without_writers(alloc, ports.len())?;
    let mut left = invs.len();
    while left > 0 {
        left -= 1;
        enter_outputs(ports, &invs[left], left as u16, &mut list);
    }
    Ok(list)
}

// So many ports without a writer.
fn without_writers(alloc: Global, count: usize) -> Result<Seq<Option<(u16, u16)>>, AllocError>
    ensures { IfOk result (λ xs. xs ≡ replicate count None) }
{
    let none = vec![in alloc; None; count]?;
    Ok(Seq::new(none))
}

// Enters the outputs of the invocation at a place as the writers of the ports of its mode, the first output of several.
fn enter_outputs(ports: &[Port], inv: &Inv, place: u16, list: &mut Seq<Option<(u16, u16)>>)
    requires room { length list.old ≡ length ports.now }
    requires few { length inv.now.writes ≤ limit.MAX_ENDS }
    ensures room { length list.new ≡ length list.old }
    ensures entered { (p : ℕ) → p < length ports.now → get_or list.new p None ≡ entered ports.now inv.now.mode place 0 inv.now.writes p (get_or list.old p None) }
{
    let writes = inv.writes.as_slice();
    let mut left = writes.len();
    while left > 0 {
        left -= 1;
        enter_end(ports, inv.mode, writes[left], (place, left as u16), list);
    }
}

// Enters an output as the writer of its end, where that is a port of the mode.
fn enter_end(
    ports: &[Port],
    mode: u16,
    end: End,
    output: (u16, u16),
    list: &mut Seq<Option<(u16, u16)>>,
)
    requires room { length list.old ≡ length ports.now }
    ensures room { length list.new ≡ length list.old }
    ensures entered { (p : ℕ) → p < length ports.now → get_or list.new p None ≡ cond (is_of ports.now mode p && goes_to p end) (Some output) (get_or list.old p None) }
{
    if let End::Port { port } = end {
        if (port as usize) < ports.len() && ports[port as usize].mode == mode {
            list.set(port as usize, Some(output));
        }
    }
}
