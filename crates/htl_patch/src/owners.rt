// The owners of the items of both programs, in the order of the items' numbers.
ghost use Rattle.std.specs.Prelude.{◌≡◌, ◌≤◌, ◌+◌, ◌++◌, All, map, OnOk, IfOk};

use htl_model::{Inv, Mode, Port, Switch, Task};
use std::alloc::{AllocError, Global};

/// An item of a module or of a mode.
pub(crate) trait HasOwner {
    ghost use Rattle.std.specs.Prelude.{◌≡◌, ℕ};

    ghost owner_of: { Self → ℕ };

    /// The number of the module or mode.
    fn owner(&self) -> u16
        ensures { result ≡ owner_of self.now };
}

impl HasOwner for Mode {
    ghost owner_of = { λ x. x.«module» };

    fn owner(&self) -> u16 {
        self.module
    }
}

impl HasOwner for Port {
    ghost owner_of = { λ x. x.mode };

    fn owner(&self) -> u16 {
        self.mode
    }
}

impl HasOwner for Task {
    ghost owner_of = { λ x. x.«module» };

    fn owner(&self) -> u16 {
        self.module
    }
}

impl HasOwner for Inv {
    ghost owner_of = { λ x. x.mode };

    fn owner(&self) -> u16 {
        self.mode
    }
}

impl HasOwner for Switch {
    ghost owner_of = { λ x. x.mode };

    fn owner(&self) -> u16 {
        self.mode
    }
}

// Puts the owners of items behind others; so many owners stand before them.
fn push_owners<T: HasOwner>(items: &[T], before: u16, into: &mut Vec<u16>) -> Result<(), AllocError>
    requires before { before ≤ 512 }
    requires low { All (λ x. T.owner_of x ≤ 512) items.now }
    ensures { OnOk result (into.new.items ≡ into.old.items ++ map (λ x. before + T.owner_of x) items.now) }
{
    for item in items {
        into.push(before + item.owner())?;
    }
    Ok(())
}

/// The owners of the host's items, and behind them those of the donor's; so many owners are the host's.
pub(crate) fn owners_of<T: HasOwner>(
    alloc: Global,
    host: &[T],
    donor: &[T],
    before: u16,
) -> Result<Vec<u16>, AllocError>
    requires before { before ≤ 512 }
    requires host { All (λ x. T.owner_of x ≤ 512) host.now }
    requires donor { All (λ x. T.owner_of x ≤ 512) donor.now }
    ensures { IfOk result (λ v. v.items ≡ map T.owner_of host.now ++ map (λ x. before + T.owner_of x) donor.now) }
{
    let mut found = Vec::new(alloc);
    push_owners(host, 0, &mut found)?;
    push_owners(donor, before, &mut found)?;
    Ok(found)
}
