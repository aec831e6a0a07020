// The typed states of an object: each keeps what was tested of it.
ghost use Rattle.std.specs.Prelude.{◌≡◌, ◌<◌, length, slice_get, Some, IfOk, OnOk, IfErr};
ghost use Rattle.htl_object.specs.Accepted.{IsFormed, IsSpelled, IsAccepted};
ghost use Rattle.htl_load.specs.Alike.{AskTheSame};
ghost use Rattle.htl_load.specs.Faults.{IsFormFault, IsSpellingFault, IsScheduleFault};
ghost use Rattle.htl_model.specs.Broken.{Formed, IsFirstBroken};
ghost use Rattle.htl_model.specs.Tables.{Compiled};
ghost use Rattle.htl_object.specs.Ranges.{IsInRange};
ghost use Rattle.htl_walk.specs.Feasible.{AreFeasible};
ghost use Rattle.htl_walk.specs.NodeWalks.{IsFirstFailing, instrs_of};

use crate::ObjectFault;
use crate::functions::first_unfit;
use htl_base::Name;
use htl_ecode::ECode;
use htl_espell::spells;
use htl_fcode::Verified;
use htl_model::{FormFault, Function, Tables};
use htl_object::Object;
use htl_refine::try_rules;
use htl_walk::{Miss, Schedule, worst_all};
use std::marker::Model;

/// An object in range whose tables break no form rule.
#[derive(Drop)]
pub struct FormedObject {
    object: Object,
}

impl Model for FormedObject {
    ghost use Rattle.htl_object.specs.declared.object.Object.{Object};
    ghost use Rattle.htl_object.specs.Accepted.{IsFormed};
    ghost use Rattle.htl_object.specs.contracts.object.Object as object_row;

    ghost Value = { Object };

    ghost coded = { object_row.the_row.coded };

    ghost view = { λ s. s.object };

    ghost invariant = { λ s. IsFormed s.object };
}

/// A formed object whose functions are verified code of the types of their places, and whose E code spells its tables.
#[derive(Drop)]
pub struct SpelledObject {
    object: Object,
}

impl Model for SpelledObject {
    ghost use Rattle.htl_object.specs.declared.object.Object.{Object};
    ghost use Rattle.htl_object.specs.Accepted.{IsSpelled};
    ghost use Rattle.htl_object.specs.contracts.object.Object as object_row;

    ghost Value = { Object };

    ghost coded = { object_row.the_row.coded };

    ghost view = { λ s. s.object };

    ghost invariant = { λ s. IsSpelled s.object };
}

/// An accepted object: it is ready to run, and under the declared worst cases every path keeps its deadlines.
pub struct Loaded {
    object: Object,
}

impl Drop for Loaded {
    fn drop(self) {
        let Self { object: _ } = self;
    }
}

impl Model for Loaded {
    ghost use Rattle.htl_object.specs.declared.object.Object.{Object};
    ghost use Rattle.htl_object.specs.Accepted.{IsAccepted};
    ghost use Rattle.htl_object.specs.contracts.object.Object as object_row;

    ghost Value = { Object };

    ghost coded = { object_row.the_row.coded };

    ghost view = { λ s. s.object };

    ghost invariant = { λ s. IsAccepted s.object };
}

impl FormedObject {
    /// An object in range of which it is known that its tables break no form rule. It takes no memory.
    pub fn of(o: Object) -> FormedObject
        requires { IsFormed o }
        ensures { result ≡ o }
    {
        FormedObject { object: o }
    }
}

/// Tests the form rules of an object in range. A refusal comes exactly where one of the form rules 1 to 16 is broken: it hands the
/// object back unchanged, with the first that is broken. It takes no memory.
pub fn formed(o: Object) -> Result<FormedObject, (Object, ObjectFault)>
    requires { IsInRange o }
    ensures formed { IfOk result (λ f. (f ≡ o) × IsFormed o) }
    ensures fault { IfErr result (λ e. (e.0 ≡ o) × IsFormFault o e.1) }
{
    match try_rules(&o.tables) {
        Ok(()) => Ok(FormedObject { object: o }),
        Err(fault) => Err((o, ObjectFault::IllFormed(fault))),
    }
}

/// Tests the functions, and then the E code. A refusal comes exactly where a function isn't verified code of the types of its place,
/// with the first such, or else where the E code departs from the tables, with the first departure. It hands the object back
/// unchanged. It takes no memory.
pub fn spelled(f: FormedObject) -> Result<SpelledObject, (Object, ObjectFault)>
    ensures spelled { IfOk result (λ s. (s ≡ f) × IsSpelled f) }
    ensures fault { IfErr result (λ e. (e.0 ≡ f) × IsSpellingFault f e.1) }
{
    let o = f.object;
    if let Some(id) = first_unfit(&o.tables) {
        return Err((o, ObjectFault::Function { id }));
    }
    match spells(&o.tables, &o.ecode) {
        Ok(()) => Ok(SpelledObject { object: o }),
        Err(fault) => Err((o, ObjectFault::ECode(fault))),
    }
}

// The worst-case walk of each path of a formed object.
fn walked(o: &Object) -> Result<(), (u32, Miss)>
    requires { IsFormed o.now }
    ensures accepted { OnOk result (AreFeasible o.now.tables (instrs_of o.now.schedules)) }
    ensures missed { IfErr result (λ e. IsFirstFailing o.now.tables (instrs_of o.now.schedules) e.0 e.1) }
{
    worst_all(&o.tables, o.schedules.as_slice())
}

/// Tests the schedules. A refusal comes exactly where the worst-case walk of some path isn't accepted: it hands the object back
/// unchanged, with the first such path and the first miss of its walk. Where all root modules have one period, paths are root
/// selections. It takes no memory.
pub fn scheduled(s: SpelledObject) -> Result<Loaded, (Object, ObjectFault)>
    ensures loaded { IfOk result (λ l. (l ≡ s) × IsAccepted s) }
    ensures fault { IfErr result (λ e. (e.0 ≡ s) × IsScheduleFault s e.1) }
{
    let o = s.object;
    match walked(&o) {
        Err((selection, miss)) => Err((o, ObjectFault::Schedule { selection, miss })),
        Ok(()) => Ok(Loaded { object: o }),
    }
}

/// The object as accepted under the schedules of another that is: its schedules are those, and its tables ask the processor for the
/// same, apart from the numbers of invocations. It walks no schedule, takes no memory, and has no refusal.
pub fn inherit(s: SpelledObject, from: &Loaded) -> Loaded
    requires schedules { s.schedules ≡ from.now.schedules }
    requires same { AskTheSame s.tables from.now.tables }
    ensures loaded { result ≡ s }
    ensures accepted { IsAccepted s }
{
    let _from = from.object();
    Loaded { object: s.object }
}

impl Loaded {
    /// The whole object. It takes no memory.
    pub fn object(&self) -> &Object
        ensures value { result.now ≡ self.now }
        ensures accepted { IsAccepted result.now }
    {
        &self.object
    }

    /// The tables.
    pub fn tables(&self) -> &Tables
        ensures value { result.now ≡ self.now.tables }
        ensures accepted { IsAccepted self.now }
    {
        &self.object.tables
    }

    /// The E code.
    pub fn ecode(&self) -> &ECode
        ensures { result.now ≡ self.now.ecode }
    {
        &self.object.ecode
    }

    /// The schedules, in the order of the nodes.
    pub fn schedules(&self) -> &[Schedule]
        ensures { result.now ≡ self.now.schedules }
    {
        self.object.schedules.as_slice()
    }

    /// The platform that the object names, if it names one. It takes no memory.
    pub fn platform(&self) -> Option<Name>
        ensures { result ≡ self.now.platform }
    {
        self.object.platform
    }

    /// The code of a function, whose number is in range.
    pub fn function(&self, id: u32) -> Verified<'_>
        requires { id < length self.now.tables.functions }
        ensures { slice_get self.now.tables.functions id ≡ Some (Compiled result.code.now) }
    {
        match &self.object.tables.parts().functions.as_slice()[id as usize] {
            Function::Code(code) => Verified::of(code),
            Function::Expr { .. } => unreachable!(),
        }
    }
}
