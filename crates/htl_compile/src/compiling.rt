// From a source to the bytes of its object.
ghost use Rattle.std.specs.Prelude.{◌≡◌, ◌⊎◌, ◌≤◌, length, IfOk, IfErr, MatchResult};
ghost use Rattle.htl_base.specs.declared.limits.TheConstants as limit;
ghost use Rattle.htl_compile.specs.Building.{IsObjectOf, IsCompiledTo, IsCompileFault};
ghost use Rattle.htl_compile.specs.Built.{AreSchedulable, built};
ghost use Rattle.htl_compile.specs.Coded.{AreTyped};
ghost use Rattle.htl_compile.specs.Sources.{IsTablesOf};
ghost use Rattle.htl_compile.specs.Stops.{IsNotCompiled, IsUnbuilt};
ghost use Rattle.htl_compile.specs.declared.compiling.CompileFault.{CompileFault as FaultOf};
ghost use Rattle.htl_model.specs.Broken.{Formed, KeepsLimits};
ghost use Rattle.htl_model.specs.FunctionTypes.{FitPlaces};
ghost use Rattle.htl_model.specs.Tables.{Tables as TablesOf};
ghost use Rattle.htl_object.specs.Objects.{object_bytes};

use crate::building::back_for;
use crate::compiling_on::WithFault;
use crate::source::front;
use crate::source_fault::SourceFault;
use crate::stop::SourceStop;
use htl_base::{Name, Time};
use htl_model::{FormFault, Tables};
use htl_object::encode;
use std::alloc::Global;

/// Why a source isn't compiled.
#[derive(Clone, Copy, PartialEq, Eq, Debug)]
pub enum CompileFault {
    /// The source's one fault.
    Source(SourceFault),
    /// The source has none, and this is the first form rule that its tables break.
    IllFormed(FormFault),
    /// Its tables break no form rule, and a path is overloaded.
    Unschedulable {
        /// The number of the first such path.
        selection: u32,
        /// The overloaded interval, in ticks from the start of the frame.
        from: Time,
        /// Its end.
        to: Time,
        /// The worst cases that have to be done in it, in ticks.
        demand: u64,
    },
    /// No memory was left.
    Memory,
}

// The bytes of the object of tables with code, for a platform where one is named; or what stops them.
pub(crate) fn object_of_tables(
    alloc: Global,
    tables: Tables,
    platform: Option<Name>,
) -> Result<Vec<u8>, SourceStop>
    requires functions { FitPlaces tables }
    requires limits { KeepsLimits tables }
    ensures object { IfOk result (λ v. IsObjectOf platform tables v.items) }
    ensures fault { IfErr result (IsUnbuilt tables) }
{
    let object = back_for(alloc, tables, platform)?;
    let bytes = encode(alloc, &object)?;
    Ok(bytes)
}

/// The bytes of the object of a source of at most 1,048,576 bytes, or what stops it first: a fault of the text, the names or the
/// functions; else of the form rules; else the first path that is overloaded.
pub fn compile_source(alloc: Global, bytes: &[u8]) -> Result<Vec<u8>, SourceStop>
    requires { length bytes.now ≤ limit.MAX_SOURCE }
    ensures compiled { IfOk result (λ v. IsCompiledTo bytes.now v.items) }
    ensures fault { IfErr result (IsNotCompiled bytes.now) }
{
    let tables = front(alloc, bytes)?;
    object_of_tables(alloc, tables, None)
}

// The bytes of the object of a source, or its first fault, without the tables of which it speaks.
fn bytes_or_fault(alloc: Global, bytes: &[u8]) -> Result<Vec<u8>, CompileFault>
    requires { length bytes.now ≤ limit.MAX_SOURCE }
    ensures compiled { IfOk result (λ v. IsCompiledTo bytes.now v.items) }
    ensures fault { IfErr result (IsCompileFault bytes.now) }
{
    match compile_source(alloc, bytes) {
        Ok(object) => Ok(object),
        Err(stop) => match WithFault::from(stop) {
            WithFault::Compile(fault) => Err(fault),
            WithFault::Platform(_) => unreachable!(),
        },
    }
}

/// The bytes of the object of a source of at most 1,048,576 bytes. The object is accepted, so loading the bytes gives it back,
/// or want of memory. It is refused exactly where the source has a fault, its tables break a form rule, or a path is
/// overloaded, with the first of these; `TooLong` is never the answer. Want of memory may stand in place of any answer.
pub fn compile(alloc: Global, bytes: &[u8]) -> Result<Vec<u8>, CompileFault>
    requires { length bytes.now ≤ limit.MAX_SOURCE }
    ensures compiled { IfOk result (λ v. IsCompiledTo bytes.now v.items) }
    ensures fault { IfErr result (IsCompileFault bytes.now) }
    ensures only { (t : TablesOf) → IsTablesOf bytes.now t → AreTyped t → Formed t → AreSchedulable t
        → MatchResult result (λ v. v.items ≡ object_bytes (built t)) (λ f. f ≡ CompileFault.Memory) }
    ensures refused { (f : FaultOf) → (f ≡ CompileFault.Memory → ⊥) → IsCompileFault bytes.now f
        → MatchResult result (λ _. ⊥) (λ g. (g ≡ f) ⊎ (g ≡ CompileFault.Memory)) }
{
    bytes_or_fault(alloc, bytes)
}
