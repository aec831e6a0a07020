// The root invocation in whose place an invocation can stand.
ghost use Rattle.std.specs.Prelude.{◌≡◌};
ghost use Rattle.htl_times.specs.Roots.{inv_parent as inv_parent_of, root_of as root_of_inv};

use htl_model::Tables;

// The parent of an invocation.
fn inv_parent(t: &Tables, inv: u16) -> Option<u16>
    ensures { result ≡ inv_parent_of t.now inv }
{
    match t.parts().invs.as_slice().get(inv as usize) {
        Some(item) => item.parent,
        None => None,
    }
}

/// The root invocation in whose place an invocation can stand: the first one without a parent from it upwards, itself where it has
/// none. There is always one where the tables break no form rule: `each_has_root`.
pub fn root_of(t: &Tables, inv: u16) -> Option<u16>
    ensures { result ≡ root_of_inv t.now inv }
{
    let mut at = inv;
    for step in 0..t.parts().modules.as_slice().len() {
        match inv_parent(t, at) {
            Some(parent) => at = parent,
            None => return Some(at),
        }
    }
    None
}
