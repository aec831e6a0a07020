// What a machine keeps beside its two machines: all of it is taken at its beginning.
ghost use Rattle.std.specs.Prelude.{◌≡◌, length, replicate, IfOk, None};

use htl_base::Value;
use htl_emach::World;
use htl_model::Tables;
use std::alloc::{AllocError, Global};

// The values of the communicators.
pub(crate) fn seen_values(
    alloc: Global,
    t: &Tables,
    world: &World,
) -> Result<Vec<Value>, AllocError>
    requires { length world.now.values ≡ length t.now.comms }
    ensures { IfOk result (λ v. v.items ≡ world.now.values) }
{
    t.keeps_ranges();
    let count = t.parts().comms.as_slice().len();
    let mut values = Vec::new(alloc);
    for c in 0..count {
        values.push(world.value(c as u16))?;
    }
    Ok(values)
}

// No mode for each module: before instant 0 all are inactive.
pub(crate) fn no_modes(alloc: Global, t: &Tables) -> Result<Vec<Option<u16>>, AllocError>
    ensures { IfOk result (λ v. v.items ≡ replicate (length t.now.modules) None) }
{
    let count = t.parts().modules.as_slice().len();
    let modes = vec![in alloc; None; count]?;
    Ok(modes)
}
