// The old numbers of the items in the new order: by owner.
ghost use Rattle.std.specs.Prelude.{◌≡◌, ◌<◌, ◌≤◌, ◌++◌, ℕ, All, length, OnOk, IfOk};
ghost use Rattle.std.specs.List.{flat_map};
ghost use Rattle.std.specs.List.Sorted.{IsNonDecreasing};
ghost use Rattle.htl_patch.specs.Owners.{owned_by};
ghost use Rattle.htl_patch.specs.Renumbered.{place_among};

use crate::places::places;
use std::alloc::{AllocError, Global};

// Puts the places of what one owner owns behind others; the first of them is given.
fn push_owned(owners: &[u16], m: u16, first: usize, into: &mut Vec<u16>) -> Result<(), AllocError>
    requires few { length owners.now ≤ 16384 }
    requires rising { IsNonDecreasing owners.now }
    requires first { first ≡ place_among m owners.now }
    ensures { OnOk result (into.new.items ≡ into.old.items ++ owned_by owners.now m) }
{
    let mut place = first;
    while place < owners.len() && owners[place] == m {
        into.push(place as u16)?;
        place += 1;
    }
    Ok(())
}

/// The places of what each of these owners owns, end to end; owners don't fall and have numbers below `count`. The time is
/// linear in the lists.
pub(crate) fn owned(
    alloc: Global,
    owners: &[u16],
    count: usize,
    keys: &[u16],
) -> Result<Vec<u16>, AllocError>
    requires few { length owners.now ≤ 16384 }
    requires rising { IsNonDecreasing owners.now }
    requires count { count ≤ 16384 }
    requires keys { All (λ m. m < count) keys.now }
    ensures { IfOk result (λ v. v.items ≡ flat_map (owned_by owners.now) keys.now) }
{
    let firsts = places(alloc, owners, count)?;
    let mut found = Vec::new(alloc);
    for k in 0..keys.len() {
        let first = firsts[keys[k] as usize] as usize;
        push_owned(owners, keys[k], first, &mut found)?;
    }
    Ok(found)
}
