// From tables with code to the object.
ghost use Rattle.std.specs.Prelude.{◌≡◌, ◌⊎◌, IfOk, IfErr, OnOk, MatchResult};
ghost use Rattle.htl_compile.specs.Building.{IsBackFault};
ghost use Rattle.htl_compile.specs.Built.{object_of, object_for, AreSchedulable};
ghost use Rattle.htl_compile.specs.declared.building.BackFault.{BackFault as FaultOf};
ghost use Rattle.htl_model.specs.Broken.{Formed, KeepsLimits, IsFirstBroken};
ghost use Rattle.htl_model.specs.FunctionTypes.{FitPlaces};
ghost use Rattle.htl_object.specs.Accepted.{IsAccepted};

use htl_base::{Memory, Name, Seq, Time};
use htl_ecode::generate_e;
use htl_edf::{PlanFault, edf_nodes};
use htl_model::{FormFault, Tables};
use htl_object::Object;
use htl_refine::try_rules;
use std::alloc::Global;

/// Why no object is built of tables.
#[derive(Clone, Copy, PartialEq, Eq, Debug)]
pub enum BackFault {
    /// The first of the form rules 1 to 16 that is broken, and where.
    IllFormed(FormFault),
    /// No form rule is broken, and a path is overloaded.
    Unschedulable {
        /// The number of the first such path; where all root modules have one period, that of the root selection.
        selection: u32,
        /// The overloaded interval, in ticks from the start of the frame: of those with the greatest end the one with the
        /// least beginning.
        from: Time,
        /// Its end.
        to: Time,
        /// The worst cases that have to be done in it, in ticks.
        demand: u64,
    },
    /// No memory was left.
    Memory,
}

impl From<PlanFault> for BackFault {
    ghost use Rattle.std.specs.Prelude.{◌≡◌};
    ghost use Rattle.htl_compile.specs.Building.{unplanned_of};

    ghost from_gives = { λ fault b. b ≡ unplanned_of fault };

    fn from(fault: PlanFault) -> BackFault {
        match fault {
            PlanFault::Overload {
                selection,
                from,
                to,
                demand,
            } => BackFault::Unschedulable {
                selection,
                from,
                to,
                demand,
            },
            PlanFault::Memory => BackFault::Memory,
        }
    }
}

/// The object of tables, for a platform where one is named; else as `back`.
pub fn back_for(
    alloc: Global,
    t: Tables,
    platform: Option<Name>,
) -> Result<Object, (Tables, BackFault)>
    requires functions { FitPlaces t }
    requires limits { KeepsLimits t }
    ensures built { IfOk result (λ o. o ≡ object_for platform t) }
    ensures formed { IfOk result (λ _. Formed t) }
    ensures schedulable { IfOk result (λ _. AreSchedulable t) }
    ensures accepted { IfOk result (λ o. IsAccepted o) }
    ensures fault { IfErr result (λ e. (e.0 ≡ t) × IsBackFault t e.1) }
{
    t.keeps_ranges();
    if let Err(fault) = try_rules(&t) {
        return Err((t, BackFault::IllFormed(fault)));
    }
    let schedules = match edf_nodes(alloc, &t) {
        Ok(schedules) => schedules,
        Err(fault) => return Err((t, BackFault::from(fault))),
    };
    match generate_e(alloc, &t) {
        Ok(ecode) => Ok(Object {
            tables: t,
            ecode,
            schedules: Seq::new(schedules),
            platform,
        }),
        Err(Memory) => Err((t, BackFault::Memory)),
    }
}

/// The object of tables: the tables themselves, their E code in the generated layout, and for each node the schedule of earliest
/// deadline first; it names no platform. The functions are verified code of the types of their places, and the tables keep the limits
/// on root selections and positions.
///
/// The object is accepted, so it can be loaded. A refusal comes exactly where a form rule is broken, with the first, or else
/// where a path is overloaded, with the first; it hands the tables back unchanged. Want of memory may stand in
/// place of any answer.
pub fn back(alloc: Global, t: Tables) -> Result<Object, (Tables, BackFault)>
    requires functions { FitPlaces t }
    requires limits { KeepsLimits t }
    ensures built { IfOk result (λ o. o ≡ object_of t) }
    ensures formed { IfOk result (λ _. Formed t) }
    ensures schedulable { IfOk result (λ _. AreSchedulable t) }
    ensures accepted { IfOk result (λ o. IsAccepted o) }
    ensures fault { IfErr result (λ e. (e.0 ≡ t) × IsBackFault t e.1) }
    ensures only { Formed t → AreSchedulable t → IfErr result (λ e. e.1 ≡ BackFault.Memory) }
    ensures refused { (f : FaultOf) → (f ≡ BackFault.Memory → ⊥) → IsBackFault t f
        → MatchResult result (λ _. ⊥) (λ e. (e.1 ≡ f) ⊎ (e.1 ≡ BackFault.Memory)) }
{
    t.keeps_ranges();
    back_for(alloc, t, None)
}
