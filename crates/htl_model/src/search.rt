//! The search for the first broken rule: over rules, modes, invocations and ends in order. A rule takes one pass over the
//! modes and the invocations, and looks at inputs, outputs and switches only where it speaks of them.
ghost use Rattle.std.specs.Prelude.{◌≡◌, ◌<◌, ◌≤◌, ◌+◌, Some, None, length, slice_get};
ghost use Rattle.htl_model.specs.First.{first_from};
ghost use Rattle.htl_model.specs.Search.{at_inv as at_inv_of, at_read, at_switch as at_switch_of, at_mode as at_mode_of, told as told_of, inv_in_mode as inv_in_mode_of, in_mode as in_mode_of, of_rule as of_rule_of, first_fault as first_fault_of};
ghost use Rattle.htl_model.specs.Starts.{IsStartOf};

use crate::items::{inv_at, next_start};
use crate::{End, FormFault, Inv, Mode, Switch, Tables};

/// An input or output of an invocation, at its place among the inputs or outputs.
#[derive(Clone, Copy)]
pub struct EndSite<'a> {
    /// The number of the invocation.
    pub number: u16,
    pub inv: &'a Inv,
    pub place: usize,
    pub end: End,
}

/// What was counted over tables, by which the rules of a kind are tried. A test finds what there is and what there
/// ought to be, where its rule is broken.
pub trait Tries<R: Copy> {
    ghost use Rattle.std.specs.Prelude.{◌≡◌, ℕ, Bool, false, None, Some, slice_get};
    ghost use Rattle.htl_model.specs.declared.parts.Inv.{Inv as InvOf};
    ghost use Rattle.htl_model.specs.declared.parts.End.{End as EndOf};
    ghost use Rattle.htl_model.specs.Search.{Tests};
    ghost use Rattle.htl_model.specs.Tables.{Tables as TablesOf};

    // what the tests of a rule find
    ghost tests: { TablesOf → R → Tests };
    // the number by which a rule is told
    ghost number: { R → ℕ };
    // what was counted is that of the tables
    ghost counted: { TablesOf → Self → Type 0 };

    /// The number by which the rule is told.
    fn number(rule: R) -> u8
        ensures { result ≡ number rule };

    /// Whether the rule speaks of inputs.
    fn judges_inputs(rule: R) -> bool
        ensures { result ≡ false → (t : TablesOf) (k : ℕ) (i : InvOf) (j : ℕ) (e : EndOf) → (tests t rule).input k i j e ≡ None };

    /// Whether the rule speaks of outputs.
    fn judges_outputs(rule: R) -> bool
        ensures { result ≡ false → (t : TablesOf) (k : ℕ) (i : InvOf) (j : ℕ) (e : EndOf) → (tests t rule).output k i j e ≡ None };

    /// Whether the rule speaks of what switches read.
    fn judges_switches(rule: R) -> bool
        ensures { result ≡ false → (t : TablesOf) (m c : ℕ) → (tests t rule).test m c ≡ None };

    /// What the rule finds at a mode itself.
    fn of_mode(&self, t: &Tables, rule: R, m: u16, mode: &Mode) -> Option<(u64, u64)>
        requires { counted t.now self.now }
        ensures { result ≡ (tests t.now rule).mode m mode.now };

    /// What it finds at a communicator that a switch of a mode reads.
    fn of_test(t: &Tables, rule: R, m: u16, comm: u16) -> Option<(u64, u64)>
        ensures { result ≡ (tests t.now rule).test m comm };

    /// What it finds at an invocation as a whole.
    fn of_inv(&self, t: &Tables, rule: R, k: u16, inv: &Inv) -> Option<(u64, u64)>
        requires counted { counted t.now self.now }
        requires inv { slice_get t.now.invs k ≡ Some inv.now }
        ensures { result ≡ (tests t.now rule).inv k inv.now };

    /// What it finds at an input of an invocation.
    fn of_input(&self, t: &Tables, rule: R, site: EndSite<'_>) -> Option<(u64, u64)>
        requires { counted t.now self.now }
        ensures { result ≡ (tests t.now rule).input site.entry.number site.entry.inv.now site.entry.place site.entry.end };

    /// What it finds at an output of an invocation.
    fn of_output(&self, t: &Tables, rule: R, site: EndSite<'_>) -> Option<(u64, u64)>
        requires counted { counted t.now self.now }
        requires inv { slice_get t.now.invs site.number ≡ Some site.inv.now }
        requires output { slice_get site.inv.now.writes site.place ≡ Some site.end }
        ensures { result ≡ (tests t.now rule).output site.entry.number site.entry.inv.now site.entry.place site.entry.end };
}

// ---- at an invocation

fn site_at<'a>(number: u16, inv: &'a Inv, place: usize, end: End) -> EndSite<'a>
    ensures { result ≡ record { number = number; inv = inv.entry; place = place; end = end } }
{
    EndSite {
        number,
        inv,
        place,
        end,
    }
}

fn first_input<R: Copy, C: Tries<R>>(
    t: &Tables,
    counts: &C,
    rule: R,
    k: u16,
    inv: &Inv,
) -> Option<(u64, u64)>
    requires { C.counted t.now counts.now }
    ensures { result ≡ first_from ((C.tests t.now rule).input k inv.now) 0 inv.now.reads }
{
    if !C::judges_inputs(rule) {
        return None;
    }
    let ends = inv.reads.as_slice();
    for j in 0..ends.len() {
        let site = site_at(k, inv, j, ends[j]);
        if let Some(found) = counts.of_input(t, rule, site) {
            return Some(found);
        }
    }
    None
}

fn first_output<R: Copy, C: Tries<R>>(
    t: &Tables,
    counts: &C,
    rule: R,
    k: u16,
    inv: &Inv,
) -> Option<(u64, u64)>
    requires counted { C.counted t.now counts.now }
    requires inv { slice_get t.now.invs k ≡ Some inv.now }
    ensures { result ≡ first_from ((C.tests t.now rule).output k inv.now) 0 inv.now.writes }
{
    if !C::judges_outputs(rule) {
        return None;
    }
    let ends = inv.writes.as_slice();
    for j in 0..ends.len() {
        let site = site_at(k, inv, j, ends[j]);
        if let Some(found) = counts.of_output(t, rule, site) {
            return Some(found);
        }
    }
    None
}

// What the rule finds at an invocation: with itself, an input, an output.
fn at_inv<R: Copy, C: Tries<R>>(
    t: &Tables,
    counts: &C,
    rule: R,
    k: u16,
    inv: &Inv,
) -> Option<(u64, u64)>
    requires counted { C.counted t.now counts.now }
    requires inv { slice_get t.now.invs k ≡ Some inv.now }
    ensures { result ≡ at_inv_of (C.tests t.now rule) k inv.now }
{
    if let Some(found) = counts.of_inv(t, rule, k, inv) {
        return Some(found);
    }
    if let Some(found) = first_input(t, counts, rule, k, inv) {
        return Some(found);
    }
    first_output(t, counts, rule, k, inv)
}

// ---- at a mode

fn first_read<R: Copy, C: Tries<R>>(
    t: &Tables,
    rule: R,
    m: u16,
    reads: &[u16],
) -> Option<(u64, u64)>
    ensures { result ≡ first_from (at_read (C.tests t.now rule) m) 0 reads.now }
{
    for j in 0..reads.len() {
        if let Some(found) = C::of_test(t, rule, m, reads[j]) {
            return Some(found);
        }
    }
    None
}

fn at_switch<R: Copy, C: Tries<R>>(
    t: &Tables,
    rule: R,
    m: u16,
    l: usize,
    switch: &Switch,
) -> Option<(u64, u64)>
    ensures { result ≡ at_switch_of (C.tests t.now rule) m l switch.now }
{
    if switch.mode == m {
        first_read::<R, C>(t, rule, m, switch.reads.as_slice())
    } else {
        None
    }
}

fn first_switch<R: Copy, C: Tries<R>>(t: &Tables, rule: R, m: u16) -> Option<(u64, u64)>
    ensures { result ≡ first_from (at_switch_of (C.tests t.now rule) m) 0 t.now.switches }
{
    if !C::judges_switches(rule) {
        return None;
    }
    let switches = t.parts().switches.as_slice();
    for l in 0..switches.len() {
        if let Some(found) = at_switch::<R, C>(t, rule, m, l, &switches[l]) {
            return Some(found);
        }
    }
    None
}

// What the rule finds at a mode: with itself, a switch.
fn at_mode<R: Copy, C: Tries<R>>(
    t: &Tables,
    counts: &C,
    rule: R,
    m: u16,
    mode: &Mode,
) -> Option<(u64, u64)>
    requires { C.counted t.now counts.now }
    ensures { result ≡ at_mode_of (C.tests t.now rule) t.now m mode.now }
{
    if let Some(found) = counts.of_mode(t, rule, m, mode) {
        return Some(found);
    }
    first_switch::<R, C>(t, rule, m)
}

// ---- what is told

// What was found, told with its rule and site.
fn told(
    rule: u8,
    module: u16,
    m: u16,
    inv: Option<u16>,
    found: Option<(u64, u64)>,
) -> Option<FormFault>
    ensures { result ≡ told_of rule «module» m inv found }
{
    match found {
        Some((have, need)) => Some(FormFault {
            rule,
            module,
            mode: m,
            inv,
            have,
            need,
        }),
        None => None,
    }
}

/// The invocations of a mode of a module: those from number `start` on, and before number `end`.
#[derive(Clone, Copy)]
struct Site {
    module: u16,
    mode: u16,
    start: usize,
    end: usize,
}

fn inv_in_mode<R: Copy, C: Tries<R>>(
    t: &Tables,
    counts: &C,
    rule: R,
    site: Site,
    k: u16,
    inv: &Inv,
) -> Option<FormFault>
    requires counted { C.counted t.now counts.now }
    requires inv { slice_get t.now.invs k ≡ Some inv.now }
    ensures { result ≡ inv_in_mode_of (C.tests t.now rule) (C.number rule) site.«module» site.mode k inv.now }
{
    if inv.mode == site.mode {
        let found = at_inv(t, counts, rule, k, inv);
        told(C::number(rule), site.module, site.mode, Some(k), found)
    } else {
        None
    }
}

fn first_inv<R: Copy, C: Tries<R>>(t: &Tables, counts: &C, rule: R, site: Site) -> Option<FormFault>
    requires counted { C.counted t.now counts.now }
    requires start { IsStartOf t.now site.mode site.start }
    requires end { IsStartOf t.now (site.mode + 1) site.end }
    requires order { site.start ≤ site.end }
    ensures { result ≡ first_from (inv_in_mode_of (C.tests t.now rule) (C.number rule) site.«module» site.mode) 0 t.now.invs }
{
    t.keeps_ranges();
    for k in site.start..site.end {
        if let Some(fault) = inv_in_mode(t, counts, rule, site, k as u16, inv_at(t, k)) {
            return Some(fault);
        }
    }
    None
}

// The first fault in a mode: at its invocations, then at itself and its switches.
fn in_mode<R: Copy, C: Tries<R>>(
    t: &Tables,
    counts: &C,
    rule: R,
    site: Site,
    mode: &Mode,
) -> Option<FormFault>
    requires counted { C.counted t.now counts.now }
    requires start { IsStartOf t.now site.mode site.start }
    requires end { IsStartOf t.now (site.mode + 1) site.end }
    requires order { site.start ≤ site.end }
    requires owner { site.«module» ≡ mode.now.«module» }
    ensures { result ≡ in_mode_of (C.tests t.now rule) (C.number rule) t.now site.mode mode.now }
{
    if let Some(fault) = first_inv(t, counts, rule, site) {
        return Some(fault);
    }
    let found = at_mode(t, counts, rule, site.mode, mode);
    told(C::number(rule), site.module, site.mode, None, found)
}

// The first fault of one rule.
fn of_rule<R: Copy, C: Tries<R>>(t: &Tables, counts: &C, place: usize, rule: R) -> Option<FormFault>
    requires { C.counted t.now counts.now }
    ensures { result ≡ of_rule_of C.tests C.number t.now place rule }
{
    let modes = t.parts().modes.as_slice();
    let mut start = 0;
    for m in 0..modes.len() {
        let mode = m as u16;
        let end = next_start(t, mode, start);
        let site = Site {
            module: modes[m].module,
            mode,
            start,
            end,
        };
        if let Some(fault) = in_mode(t, counts, rule, site, &modes[m]) {
            return Some(fault);
        }
        start = end;
    }
    None
}

/// The first fault of these rules, in their order. It takes no memory.
pub fn first_fault<R: Copy, C: Tries<R>>(t: &Tables, counts: &C, rules: &[R]) -> Option<FormFault>
    requires { C.counted t.now counts.now }
    ensures { result ≡ first_fault_of C.tests C.number t.now rules.now }
{
    for place in 0..rules.len() {
        if let Some(fault) = of_rule(t, counts, place, rules[place]) {
            return Some(fault);
        }
    }
    None
}
