// Which module's concrete invocations write each communicator.
ghost use Rattle.std.specs.Prelude.{◌≡◌, ◌≤◌, ◌<◌, ◌+◌, ℕ, true, false, length, get_or, slice_get, Some};
ghost use Rattle.std.specs.List.{list_any};
ghost use Rattle.htl_model.specs.declared.parts.Inv.{Inv as InvOf};
ghost use Rattle.htl_model.specs.Tables.{is_concrete as is_concrete_of, mode_module as mode_module_of};
ghost use Rattle.htl_form.specs.Apart.{is_comm};
ghost use Rattle.htl_form.specs.Owners.{has_module, has_other as has_other_of, is_shared_end as is_shared_end_of, KeepOwners, AreOwners};
ghost use Rattle.htl_form.specs.declared.owners.Owner.TheVariants as owner;

use htl_model::items::inv_at;
use htl_model::lookup::{is_concrete, mode_module};
use htl_model::{End, Inv, Tables};

/// The modules whose concrete invocations write a communicator, as far as they were noted.
#[derive(Clone, Copy)]
pub enum Owner {
    /// None.
    Nobody,
    /// One, by its number.
    One(u16),
    /// More than one.
    Several,
}

// ---- noting

// The owner with one module more.
fn joined(found: Owner, module: u16) -> Owner
    ensures keeps { (u : ℕ) → has_module found u ≡ true → has_module result u ≡ true }
    ensures notes { has_module result «module» ≡ true }
{
    match found {
        Owner::Nobody => Owner::One(module),
        Owner::One(other) => if other == module {
            found
        } else {
            Owner::Several
        },
        Owner::Several => found,
    }
}

// Notes a module at the communicator of an end, if it is an instance.
fn note_end(end: End, module: u16, owners: &mut [Owner])
    ensures keeps { KeepOwners owners.old owners.new }
    ensures notes { (c : ℕ) → c < length owners.old → is_comm c end ≡ true → has_module (get_or owners.new c owner.Nobody) «module» ≡ true }
    ensures len { length owners.new ≡ length owners.old }
{
    if let End::Comm { comm, .. } = end {
        if (comm as usize) < owners.len() {
            owners[comm as usize] = joined(owners[comm as usize], module);
        }
    }
}

// Notes it at the communicators of the ends.
fn note_ends(ends: &[End], module: u16, owners: &mut [Owner])
    ensures keeps { KeepOwners owners.old owners.new }
    ensures notes { (c : ℕ) → c < length owners.old → list_any (is_comm c) ends.now ≡ true → has_module (get_or owners.new c owner.Nobody) «module» ≡ true }
    ensures len { length owners.new ≡ length owners.old }
{
    for k in 0..ends.len() {
        note_end(ends[k], module, owners);
    }
}

// Notes the module of an invocation at what it writes, where it is concrete.
fn note_inv(t: &Tables, inv: &Inv, owners: &mut [Owner])
    ensures keeps { KeepOwners owners.old owners.new }
    ensures notes { (c : ℕ) → c < length owners.old → is_concrete_of t.now inv.now ≡ true → list_any (is_comm c) inv.now.writes ≡ true → has_module (get_or owners.new c owner.Nobody) (mode_module_of t.now inv.now.mode) ≡ true }
    ensures len { length owners.new ≡ length owners.old }
{
    if is_concrete(t, inv) {
        note_ends(inv.writes.as_slice(), mode_module(t, inv.mode), owners);
    }
}

/// Notes what the `n` invocations from `base` on write, where all before them are noted.
pub fn note_owners(t: &Tables, base: usize, n: usize, owners: &mut [Owner])
    requires within { base + n ≤ length t.now.invs }
    requires len { length owners.old ≡ 1024 }
    requires before { AreOwners t.now base owners.old }
    ensures owners { AreOwners t.now (base + n) owners.new }
    ensures len { length owners.new ≡ length owners.old }
{
    t.keeps_ranges();
    for q in 0..n {
        note_inv(t, inv_at(t, base + q), owners);
    }
}

// ---- asking

fn has_other(found: Owner, module: u16) -> bool
    ensures { result ≡ has_other_of found «module» }
{
    match found {
        Owner::Nobody => false,
        Owner::One(other) => other != module,
        Owner::Several => true,
    }
}

// Whether an end is an instance of a communicator that another module writes.
fn is_shared_end(end: End, module: u16, owners: &[Owner]) -> bool
    ensures { result ≡ is_shared_end_of owners.now «module» end }
{
    match end {
        End::Comm { comm, .. } => {
            (comm as usize) < owners.len() && has_other(owners[comm as usize], module)
        }
        End::Port { .. } => false,
    }
}

fn some_shared(ends: &[End], module: u16, owners: &[Owner]) -> bool
    ensures { result ≡ list_any (is_shared_end_of owners.now «module») ends.now }
{
    ends.iter().any(|end| is_shared_end(*end, module, owners))
}

/// Whether a concrete one of the `n` invocations from `base` on writes a communicator that another module was noted to write.
pub fn writes_shared(t: &Tables, base: usize, n: usize, module: u16, owners: &[Owner]) -> bool
    requires { base + n ≤ length t.now.invs }
    ensures { result ≡ false → (q : ℕ) (y : InvOf) → q < n → slice_get t.now.invs (base + q) ≡ Some y → is_concrete_of t.now y ≡ true → list_any (is_shared_end_of owners.now «module») y.writes ≡ false }
{
    t.keeps_ranges();
    for q in 0..n {
        let inv = inv_at(t, base + q);
        if is_concrete(t, inv) && some_shared(inv.writes.as_slice(), module, owners) {
            return true;
        }
    }
    false
}
