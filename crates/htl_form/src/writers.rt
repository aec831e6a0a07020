// Form rule 12: concrete writers are unique.
ghost use Rattle.std.specs.Prelude.{◌≡◌, ◌≤◌, ◌<◌, Some, length, slice_get};
ghost use Rattle.htl_model.specs.declared.parts.Inv.{Inv};
ghost use Rattle.std.specs.List.{list_any};
ghost use Rattle.htl_form.specs.Surveys.{IsSurveyOf};
ghost use Rattle.htl_form.specs.WriterFaults.{hits as hits_of, outputs_before, rivals as rivals_of, writer_before as writer_before_of, first_writer as first_writer_of, writer_fault as writer_fault_of};

use crate::paths::stand_together;
use crate::survey::Survey;
use htl_model::items::{inv_at, inv_count};
use htl_model::lookup::is_concrete;
use htl_model::search::EndSite;
use htl_model::{End, Inv, Tables};

/// An instance of a communicator.
#[derive(Clone, Copy)]
struct Instance {
    comm: u16,
    number: u32,
}

// Whether an end is an instance of the communicator, in the same mode the same instance.
fn hits(same: bool, what: Instance, end: End) -> bool
    ensures { result ≡ hits_of same what.comm what.number end }
{
    match end {
        End::Comm { comm, instance } => comm == what.comm && (!same || instance == what.number),
        End::Port { .. } => false,
    }
}

fn some_hits(same: bool, what: Instance, ends: &[End]) -> bool
    ensures { result ≡ list_any (hits_of same what.comm what.number) ends.now }
{
    ends.iter().any(|end| hits(same, what, *end))
}

// Whether an invocation is concrete and writes among the ends what the instance in the mode of another is.
fn rivals(t: &Tables, inv: &Inv, what: Instance, x: &Inv, ends: &[End]) -> bool
    ensures { result ≡ rivals_of t.now inv.now what.comm what.number x.now ends.now }
{
    is_concrete(t, x)
        && (x.mode == inv.mode || stand_together(t, x.mode, inv.mode))
        && some_hits(x.mode == inv.mode, what, ends)
}

// The outputs of invocation `l` before output `j` of invocation `k`.
fn ends_before(k: u16, j: usize, l: u16, x: &Inv) -> &[End]
    requires { l ≡ k → j ≤ length x.now.writes }
    ensures { result.now ≡ outputs_before k j l x.now }
{
    let writes = x.writes.as_slice();
    if l < k {
        writes
    } else if l == k {
        &writes[..j]
    } else {
        &[]
    }
}

// The number of an invocation that writes the same before output `j` of invocation `k`.
fn writer_before(t: &Tables, k: u16, inv: &Inv, j: usize, what: Instance, l: u16) -> Option<u16>
    requires inv { slice_get t.now.invs k ≡ Some inv.now }
    requires j { j ≤ length inv.now.writes }
    requires l { l < length t.now.invs }
    ensures { (x : Inv) → slice_get t.now.invs l ≡ Some x → result ≡ writer_before_of t.now k inv.now j what.comm what.number l x }
{
    let x = inv_at(t, l as usize);
    if rivals(t, inv, what, x, ends_before(k, j, l, x)) {
        Some(l)
    } else {
        None
    }
}

// The first of them.
fn first_writer(t: &Tables, k: u16, inv: &Inv, j: usize, what: Instance) -> Option<u16>
    requires inv { slice_get t.now.invs k ≡ Some inv.now }
    requires j { j ≤ length inv.now.writes }
    ensures { result ≡ first_writer_of t.now k inv.now j what.comm what.number }
{
    let count = inv_count(t);
    for l in 0..count {
        if let Some(found) = writer_before(t, k, inv, j, what, l as u16) {
            return Some(found);
        }
    }
    None
}

/// An output of a concrete invocation that writes what an earlier concrete writer writes.
pub fn writer_fault(t: &Tables, survey: &Survey, site: EndSite<'_>) -> Option<(u64, u64)>
    requires survey { IsSurveyOf t.now survey.now }
    requires inv { slice_get t.now.invs site.number ≡ Some site.inv.now }
    requires output { slice_get site.inv.now.writes site.place ≡ Some site.end }
    ensures { result ≡ writer_fault_of t.now site.entry.number site.entry.inv.now site.entry.place site.entry.end }
{
    t.keeps_ranges();
    match site.end {
        End::Comm { comm, instance } => {
            if !is_concrete(t, site.inv) || survey.apart[site.number as usize] {
                return None;
            }
            match first_writer(
                t,
                site.number,
                site.inv,
                site.place,
                Instance {
                    comm,
                    number: instance,
                },
            ) {
                Some(l) => Some((l as u64, comm as u64)),
                None => None,
            }
        }
        End::Port { .. } => None,
    }
}
