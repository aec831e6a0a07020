// The new numbers by the old ones.
ghost use Rattle.std.specs.Prelude.{◌≡◌, ◌<◌, ◌≤◌, ℕ, length, get_or, take, drop, IfOk};
ghost use Rattle.htl_patch.specs.Renumbered.{place_among};

use std::alloc::{AllocError, Global};

/// The place of each number below `count` in the list, or the list's length.
pub(crate) fn places(alloc: Global, keys: &[u16], count: usize) -> Result<Vec<u16>, AllocError>
    requires few { length keys.now ≤ 16384 }
    requires numbers { count ≤ 16384 }
    ensures size { IfOk result (λ v. length v.items ≡ count) }
    ensures places { IfOk result (λ v. (k : ℕ) → k < count → get_or v.items k 0 ≡ place_among k keys.now) }
{
    let mut found = Vec::new(alloc);
    for _ in 0..count {
        found.push(keys.len() as u16)?;
    }
    let mut place = keys.len();
    while place > 0 {
        place -= 1;
        let key = keys[place] as usize;
        if key < count {
            found[key] = place as u16;
        }
    }
    Ok(found)
}
