// Form rule 8: a port that is read has exactly one writer, and any port at most one.
ghost use Rattle.std.specs.Prelude.{◌≡◌, ◌≤◌, ◌<◌, ◌+◌, ℕ, length, get_or, slice_get, cond, ltb, Some, None};
ghost use Rattle.std.specs.List.{list_any};
ghost use Rattle.htl_model.specs.First.{or_else};
ghost use Rattle.htl_form.specs.PortFaults.{unwritten_fault as unwritten_fault_of, rewritten_fault as rewritten_fault_of, writers_before as writers_before_of, first_port_writer, is_below as is_below_of};
ghost use Rattle.htl_form.specs.Surveys.{IsSurveyOf};
ghost use Rattle.htl_model.specs.PortWriters.{is_port as is_port_of, port_uses, port_writers};

use crate::survey::Survey;
use htl_base::limits::MAX_PORTS;
use htl_model::search::EndSite;
use htl_model::{End, Inv, Tables};

/// How many ends are the port.
fn uses(port: u16, ends: &[End]) -> u32
    requires { length ends.now ≤ 256 }
    ensures count { result ≡ port_uses port ends.now }
    ensures few { result ≤ 256 }
{
    let mut n = 0u32;
    for k in 0..ends.len() {
        if let End::Port { port: p } = ends[k] {
            if p == port {
                n += 1;
            }
        }
    }
    n
}

// Counts an end that is a port.
fn add_end(end: End, counts: &mut [u32])
    requires { (p : ℕ) → get_or counts.old p 0 < 4294967295 }
    ensures { (p : ℕ) → p < length counts.old → get_or counts.new p 0 ≡ get_or counts.old p 0 + cond (is_port_of p end) 1 0 }
{
    if let End::Port { port } = end {
        if (port as usize) < counts.len() {
            counts[port as usize] += 1;
        }
    }
}

// Counts the ends that are ports.
fn add_ends(ends: &[End], counts: &mut [u32])
    requires { (p : ℕ) → get_or counts.old p 0 + length ends.now < 4294967295 }
    ensures count { (p : ℕ) → p < length counts.old → get_or counts.new p 0 ≡ get_or counts.old p 0 + port_uses p ends.now }
{
    for k in 0..ends.len() {
        add_end(ends[k], counts);
    }
}

/// Counts for each port the outputs that write it.
pub fn count_writers(t: &Tables, counts: &mut [u32])
    requires { (p : ℕ) → get_or counts.old p 0 ≡ 0 }
    ensures { (p : ℕ) → p < length counts.old → get_or counts.new p 0 ≡ port_writers t.now p }
{
    let invs = t.parts().invs.as_slice();
    for k in 0..invs.len() {
        let inv = &invs[k];
        add_ends(inv.writes.as_slice(), counts);
    }
}

// Notes that invocation `k` writes the end, if that is a port that none is noted to write.
fn note_end(end: End, k: u16, firsts: &mut [Option<u16>])
    ensures { (p : ℕ) → p < length firsts.old → get_or firsts.new p None ≡ or_else (get_or firsts.old p None) (cond (is_port_of p end) (Some k) None) }
{
    if let End::Port { port } = end {
        if (port as usize) < firsts.len() && firsts[port as usize].is_none() {
            firsts[port as usize] = Some(k);
        }
    }
}

// Notes the ports that invocation `k` writes and none is noted to write.
fn note_ends(ends: &[End], k: u16, firsts: &mut [Option<u16>])
    ensures { (p : ℕ) → p < length firsts.old → get_or firsts.new p None ≡ or_else (get_or firsts.old p None) (cond (list_any (is_port_of p) ends.now) (Some k) None) }
{
    for j in 0..ends.len() {
        note_end(ends[j], k, firsts);
    }
}

/// Notes for each port the first invocation that writes it.
pub fn note_first_writers(t: &Tables, firsts: &mut [Option<u16>])
    requires { (p : ℕ) → get_or firsts.old p None ≡ None }
    ensures { (p : ℕ) → p < length firsts.old → get_or firsts.new p None ≡ first_port_writer t.now p }
{
    t.keeps_ranges();
    let invs = t.parts().invs.as_slice();
    for k in 0..invs.len() {
        let inv = &invs[k];
        note_ends(inv.writes.as_slice(), k as u16, firsts);
    }
}

/// How many outputs write the port.
fn writers(t: &Tables, survey: &Survey, port: u16) -> u32
    requires { IsSurveyOf t.now survey.now }
    ensures { result ≡ port_writers t.now port }
{
    t.keeps_ranges();
    if (port as usize) < MAX_PORTS {
        survey.writers[port as usize]
    } else {
        0
    }
}

/// The first invocation that writes the port.
fn first_writer(t: &Tables, survey: &Survey, port: u16) -> Option<u16>
    requires { IsSurveyOf t.now survey.now }
    ensures { result ≡ first_port_writer t.now port }
{
    t.keeps_ranges();
    if (port as usize) < MAX_PORTS {
        survey.first_writers[port as usize]
    } else {
        None
    }
}

// Whether there is a number, and it is below another.
fn is_below(found: Option<u16>, k: u16) -> bool
    ensures { result ≡ is_below_of found k }
{
    match found {
        Some(l) => l < k,
        None => false,
    }
}

/// Whether an output that writes the port stands before output `j` of invocation `k`.
fn is_written_before(t: &Tables, survey: &Survey, port: u16, k: u16, inv: &Inv, j: usize) -> bool
    requires survey { IsSurveyOf t.now survey.now }
    requires inv { slice_get t.now.invs k ≡ Some inv.now }
    requires j { j < length inv.now.writes }
    ensures { result ≡ ltb 0 (writers_before_of t.now port k inv.now j) }
{
    t.keeps_ranges();
    let writes = inv.writes.as_slice();
    is_below(first_writer(t, survey, port), k) || 0 < uses(port, &writes[..j])
}

/// An input that reads a port that no output writes.
pub fn unwritten_fault(t: &Tables, survey: &Survey, end: End) -> Option<(u64, u64)>
    requires { IsSurveyOf t.now survey.now }
    ensures { result ≡ unwritten_fault_of t.now end }
{
    match end {
        End::Comm { .. } => None,
        End::Port { port } => if 0 < writers(t, survey, port) {
            None
        } else {
            Some((0, 1))
        },
    }
}

/// An output that writes a port that an earlier output writes.
pub fn rewritten_fault(t: &Tables, survey: &Survey, site: EndSite<'_>) -> Option<(u64, u64)>
    requires survey { IsSurveyOf t.now survey.now }
    requires inv { slice_get t.now.invs site.number ≡ Some site.inv.now }
    requires output { slice_get site.inv.now.writes site.place ≡ Some site.end }
    ensures { result ≡ rewritten_fault_of t.now site.entry.number site.entry.inv.now site.entry.place site.entry.end }
{
    let port = match site.end {
        End::Comm { .. } => return None,
        End::Port { port } => port,
    };
    let count = writers(t, survey, port);
    if count < 2 {
        return None;
    }
    if is_written_before(t, survey, port, site.number, site.inv, site.place) {
        Some((count as u64, 1))
    } else {
        None
    }
}
