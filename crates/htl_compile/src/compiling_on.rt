// From a source and a platform file to the bytes of the source's object on the platform.
ghost use Rattle.std.specs.Prelude.{◌≡◌, ◌⊎◌, ◌≤◌, length, Ok, IfOk, IfErr, MatchResult};
ghost use Rattle.htl_base.specs.declared.limits.TheConstants as limit;
ghost use Rattle.htl_compile.specs.Built.{AreSchedulable};
ghost use Rattle.htl_compile.specs.Coded.{AreTyped};
ghost use Rattle.htl_compile.specs.OnPlatform.{built_on, IsOn, IsNoPlatform, IsCompiledOn, IsWithFault};
ghost use Rattle.htl_compile.specs.Sources.{IsTablesOf};
ghost use Rattle.htl_compile.specs.Stops.{IsNotCompiledOn};
ghost use Rattle.htl_compile.specs.declared.compiling.CompileFault.TheVariants as failing;
ghost use Rattle.htl_compile.specs.declared.compiling_on.WithFault.{WithFault as FaultOf};
ghost use Rattle.htl_model.specs.Broken.{Formed, KeepsLimits};
ghost use Rattle.htl_model.specs.FunctionTypes.{FitPlaces};
ghost use Rattle.htl_model.specs.Tables.{Tables as TablesOf};
ghost use Rattle.htl_object.specs.Objects.{object_bytes};
ghost use Rattle.htl_platform.specs.Applied.{with_worst};
ghost use Rattle.htl_platform.specs.Platforms.{platform_of};
ghost use Rattle.htl_platform.specs.declared.platform.Platform.{Platform as PlatformOf};

use crate::compiling::{CompileFault, object_of_tables};
use crate::source::front;
use crate::stop::SourceStop;
use htl_base::Name;
use htl_model::Tables;
use htl_platform::{PlatformFault, PlatformStop, apply, read_platform};
use std::alloc::Global;

/// Why a source isn't compiled for a platform.
#[derive(Clone, Copy, Debug)]
pub enum WithFault {
    /// The source has a fault; or neither the source nor the platform file has one, and the tables with the platform's worst
    /// cases break a form rule or have an overloaded path; or no memory was left.
    Compile(CompileFault),
    /// The source has no fault, and this is the platform file's first.
    Platform(PlatformFault),
}

/// Tables with the worst cases of the platform that a file says, and the platform's name; or the file's first fault for these
/// tables. They keep the types of functions and the limits. The cost is that of reading the file.
pub fn on_platform(
    alloc: Global,
    t: Tables,
    platform: &[u8],
) -> Result<(Tables, Name), PlatformStop>
    requires functions { FitPlaces t }
    requires limits { KeepsLimits t }
    ensures on { IfOk result (λ u. IsOn t platform.now u.0 u.1) }
    ensures functions { IfOk result (λ u. FitPlaces u.0) }
    ensures limits { IfOk result (λ u. KeepsLimits u.0) }
    ensures refused { IfErr result (IsNoPlatform t platform.now) }
{
    match read_platform(alloc, platform, &t) {
        Ok(read) => Ok((apply(t, &read), read.name)),
        Err(stop) => Err(stop),
    }
}

/// The bytes of the object of a source on the platform that a file says, or what stops it first: a fault of the source's text, names
/// or functions; else of the platform file; else of the form rules; else the first path that is overloaded.
pub fn compile_source_on(
    alloc: Global,
    bytes: &[u8],
    platform: &[u8],
) -> Result<Vec<u8>, SourceStop>
    requires { length bytes.now ≤ limit.MAX_SOURCE }
    ensures compiled { IfOk result (λ v. IsCompiledOn bytes.now platform.now v.items) }
    ensures fault { IfErr result (IsNotCompiledOn bytes.now platform.now) }
{
    let tables = front(alloc, bytes)?;
    let (tables, name) = on_platform(alloc, tables, platform)?;
    object_of_tables(alloc, tables, Some(name))
}

// The bytes of the object of a source on a platform, or the first fault, without the tables of which it speaks.
fn bytes_or_fault_on(alloc: Global, bytes: &[u8], platform: &[u8]) -> Result<Vec<u8>, WithFault>
    requires { length bytes.now ≤ limit.MAX_SOURCE }
    ensures compiled { IfOk result (λ v. IsCompiledOn bytes.now platform.now v.items) }
    ensures fault { IfErr result (IsWithFault bytes.now platform.now) }
{
    let object = compile_source_on(alloc, bytes, platform)?;
    Ok(object)
}

/// The bytes of the object of a source on the platform that a file says: the object of the source's tables with the platform's
/// worst cases, which names the platform. Source and file have at most 1,048,576 bytes each. The object is accepted, so loading
/// the bytes gives it back, or want of memory.
///
/// It is refused exactly where the source has a fault, else where the file has one for the source's tasks, else where the tables
/// with the platform's worst cases break a form rule or have an overloaded path; with the first of these. `TooLong` is
/// never the answer. Want of memory, `CompileFault::Memory`, may stand in place of any answer.
pub fn compile_with(alloc: Global, bytes: &[u8], platform: &[u8]) -> Result<Vec<u8>, WithFault>
    requires source { length bytes.now ≤ limit.MAX_SOURCE }
    requires platform { length platform.now ≤ limit.MAX_SOURCE }
    ensures compiled { IfOk result (λ v. IsCompiledOn bytes.now platform.now v.items) }
    ensures fault { IfErr result (IsWithFault bytes.now platform.now) }
    ensures only { (t : TablesOf) (p : PlatformOf) → IsTablesOf bytes.now t → AreTyped t → platform_of t platform.now ≡ Ok p
        → Formed (with_worst t p.worst) → AreSchedulable (with_worst t p.worst)
        → MatchResult result (λ v. v.items ≡ object_bytes (built_on p t)) (λ f. f ≡ WithFault.Compile failing.Memory) }
    ensures refused { (f : FaultOf) → (f ≡ WithFault.Compile failing.Memory → ⊥) → IsWithFault bytes.now platform.now f
        → MatchResult result (λ _. ⊥) (λ g. (g ≡ f) ⊎ (g ≡ WithFault.Compile failing.Memory)) }
{
    bytes_or_fault_on(alloc, bytes, platform)
}
