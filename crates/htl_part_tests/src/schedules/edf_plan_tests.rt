// A schedule for each selection of a module with three modes.
ghost use Rattle.htl_model.specs.Broken.{KeepsLimits};

use crate::asserts::same;
use crate::made::made_of;
use htl_edf::{PlanFault, edf_all};
use htl_form::form;
use htl_model::Tables;
use htl_samples::pieces::Text;
use htl_walk::{SInstr, Schedule, roots_have_one_period};
use std::alloc::Global;

// The mode k invokes a, the mode l a and b, the mode m b and c.
const THREE_MODES: &str = "program P {
  module M start k {
    task a input () output () worst 4;
    task b input () output () worst 6;
    task c input () output () worst 3;
    mode k period 10 { invoke a input () output (); }
    mode l period 10 { invoke a input () output (); invoke b input () output (); }
    mode m period 10 { invoke b input () output (); invoke c input () output (); }
  }
}";

// The schedules of tables that keep the form rules, and whose root modules have one period, or the fault.
fn schedules(alloc: Global, t: &Tables) -> Option<Result<Vec<Schedule>, PlanFault>>
    requires { KeepsLimits t.now }
{
    match form(t) {
        Ok(()) => if roots_have_one_period(t) {
            Some(edf_all(alloc, t))
        } else {
            None
        },
        Err(_) => None,
    }
}

fn plan(alloc: Global, text: Text) -> Option<Result<Vec<Schedule>, PlanFault>> {
    let t = made_of(alloc, text)?;
    schedules(alloc, &t)
}

// The instructions of lists, one list behind the other.
fn instrs_of(alloc: Global, lists: &[Schedule]) -> Option<Vec<SInstr>> {
    let mut instrs = Vec::new(alloc);
    for list in lists {
        instrs.extend_from_slice(list.instrs.as_slice()).ok()?;
    }
    Some(instrs)
}

fn have(alloc: Global, lists: &[Schedule], wanted: &[SInstr]) -> Option<bool> {
    let instrs = instrs_of(alloc, lists)?;
    Some(instrs.as_slice() == wanted)
}

// Whether the schedules have these instructions.
fn are_planned(alloc: Global, text: Text, wanted: &[SInstr]) -> Option<bool> {
    let lists = plan(alloc, text)?.ok()?;
    have(alloc, lists.as_slice(), wanted)
}

// The fault of the scheduler.
fn overload(alloc: Global, text: Text) -> Option<PlanFault> {
    plan(alloc, text)?.err()
}

const PLANNED: [SInstr; 8] = [
    SInstr::Dispatch {
        position: 0,
        until: 4,
    },
    SInstr::End,
    SInstr::Dispatch {
        position: 0,
        until: 4,
    },
    SInstr::Dispatch {
        position: 1,
        until: 10,
    },
    SInstr::End,
    SInstr::Dispatch {
        position: 0,
        until: 6,
    },
    SInstr::Dispatch {
        position: 1,
        until: 9,
    },
    SInstr::End,
];

#[test]
fn each_selection_has_a_schedule(rt: HostRuntime) {
    let text = Text::Whole(THREE_MODES);
    same(&rt, are_planned(rt.alloc(), text, &PLANNED), Some(true));
}

// Edits of the text, the selection that is overloaded first, and its demand.
const OVERLOADED: [(&[(&str, &str)], u32, u64); 2] = [
    (&[("worst 6", "worst 7"), ("worst 3", "worst 8")], 1, 11),
    (&[("worst 3", "worst 8")], 2, 14),
];

#[test]
fn the_first_overloaded_selection_is_named(rt: HostRuntime) {
    for (edits, selection, demand) in OVERLOADED {
        let over = PlanFault::Overload {
            selection,
            from: 0,
            to: 10,
            demand,
        };
        let text = Text::Edited(THREE_MODES, edits);
        same(&rt, overload(rt.alloc(), text), Some(over));
    }
}
