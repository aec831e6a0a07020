//! Which invocation writes a port.
ghost use Rattle.std.specs.Prelude.{◌≡◌, ◌≤◌, length, All};
ghost use Rattle.htl_base.specs.declared.limits.TheConstants as limit;
ghost use Rattle.htl_model.specs.Meaning.{port_output as port_output_of, writer_from};

use crate::{End, Inv};

/// The place of the output that goes to a port.
pub fn port_output(port: u16, ends: &[End]) -> Option<u16>
    requires { length ends.now ≤ limit.MAX_ENDS }
    ensures { result ≡ port_output_of port 0 ends.now }
{
    for k in 0..ends.len() {
        if let End::Port { port: p } = ends[k] {
            if p == port {
                return Some(k as u16);
            }
        }
    }
    None
}

/// The writer of a port in a mode, and the place of its output.
pub fn port_writer(mode: u16, port: u16, invs: &[Inv]) -> Option<(u16, u16)>
    requires few { length invs.now ≤ limit.MAX_INVOCATIONS }
    requires ends { All (λ i. length i.writes ≤ limit.MAX_ENDS) invs.now }
    ensures { result ≡ writer_from mode port 0 invs.now }
{
    for k in 0..invs.len() {
        let inv = &invs[k];
        if inv.mode == mode {
            let writes = inv.writes.as_slice();
            if let Some(output) = port_output(port, writes) {
                return Some((k as u16, output));
            }
        }
    }
    None
}
