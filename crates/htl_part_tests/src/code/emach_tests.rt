// A run of a source with one invocation.
ghost use Rattle.std.specs.Prelude.{◌≡◌, ◌≤◌, ◌<◌, ℤ, length, slice_get, true, Some, IfSome};
ghost use Rattle.htl_base.specs.declared.limits.TheConstants as limit;
ghost use Rattle.htl_model.specs.declared.parts.Comm.{Comm};
ghost use Rattle.htl_model.specs.FrameRules.{KeptApart};
ghost use Rattle.htl_model.specs.FunctionTypes.{FitPlaces};
ghost use Rattle.htl_model.specs.Ranges.{FitsType};
ghost use Rattle.htl_model.specs.Tables.{is_concrete as is_concrete_of};
ghost use Rattle.htl_ecode.specs.Spelling.{Spells};
ghost use Rattle.htl_emach.specs.Due.{IsUpToNext};
ghost use Rattle.htl_part_tests.specs.Running.{CanRun};

use crate::asserts::{holds, same};
use crate::made::{is_formed, keeps_offsets, made_of};
use htl_base::{Time, Ty, Value};
use htl_ecode::{ECode, EInstr, generate_e};
use htl_emach::{EMach, World};
use htl_model::Tables;
use htl_model::lookup::is_concrete;
use htl_samples::pieces::Text;
use htl_samples::samples::DOUBLING;
use std::alloc::Global;

// Whether there is a communicator of integers.
fn is_int(t: &Tables, comm: u16) -> bool
    ensures known { result ≡ true → comm < length t.now.comms }
    ensures fits { result ≡ true → (c : Comm) → slice_get t.now.comms comm ≡ Some c → (x : ℤ) → FitsType c.ty x }
{
    match t.parts().comms.as_slice().get(comm as usize) {
        Some(item) => item.ty == Ty::Int,
        None => false,
    }
}

// Whether there is an invocation of a task with code.
fn is_with_code(t: &Tables, inv: u16) -> bool
    ensures known { result ≡ true → inv < length t.now.invs }
    ensures concrete { result ≡ true → IfSome (slice_get t.now.invs inv) (λ x. is_concrete_of t.now x ≡ true) }
{
    match t.parts().invs.as_slice().get(inv as usize) {
        Some(item) => is_concrete(t, item),
        None => false,
    }
}

// Whether an instant is no later than the machine's next.
fn is_up_to_next(m: &EMach, at: Time) -> bool
    ensures { result ≡ true → IsUpToNext at m.now }
{
    match m.next() {
        Some(next) => at <= next,
        None => true,
    }
}

// A phase of an instant.
#[derive(Clone, Copy)]
struct PhaseOfInstant {
    phase: u8,
    at: Time,
}

// All that is due in a phase of an instant; each instruction is told with the instant and its address.
fn do_phase(
    m: &mut EMach,
    t: &Tables,
    code: &ECode,
    world: &mut World,
    doing: PhaseOfInstant,
    told: &mut Vec<(Time, u32, EInstr)>,
) -> Option<()>
    requires run { CanRun t.now code.now m.old world.old }
    requires phase { (1 ≤ doing.phase) × (doing.phase ≤ 3) }
    requires at { doing.at ≤ limit.MAX_INSTANT }
    ensures { CanRun t.now code.now m.new world.new }
{
    for _ in 0..100 {
        if !is_up_to_next(m, doing.at) {
            return None;
        }
        let Some(d) = m.instant(t, code, world, doing.phase, doing.at) else {
            return Some(());
        };
        told.push((doing.at, d.address, d.instr)).ok()?;
    }
    None
}

// The three phases of an instant.
fn do_instant(
    m: &mut EMach,
    t: &Tables,
    code: &ECode,
    world: &mut World,
    at: Time,
    told: &mut Vec<(Time, u32, EInstr)>,
) -> Option<()>
    requires run { CanRun t.now code.now m.old world.old }
    requires at { at ≤ limit.MAX_INSTANT }
    ensures { CanRun t.now code.now m.new world.new }
{
    do_phase(m, t, code, world, PhaseOfInstant { phase: 1, at }, told)?;
    do_phase(m, t, code, world, PhaseOfInstant { phase: 2, at }, told)?;
    do_phase(m, t, code, world, PhaseOfInstant { phase: 3, at }, told)
}

// The sensor shows a value.
fn show(t: &Tables, code: &ECode, m: &EMach, world: &mut World, x: Value) -> Option<()>
    requires { CanRun t.now code.now m.now world.old }
    ensures { CanRun t.now code.now m.now world.new }
{
    if !is_int(t, 0) {
        return None;
    }
    if world.takes(0, x) {
        world.set(0, x);
        return Some(());
    }
    None
}

// The job of the invocation finishes.
fn finish(t: &Tables, code: &ECode, m: &EMach, world: &mut World) -> Option<()>
    requires { CanRun t.now code.now m.now world.old }
    ensures { CanRun t.now code.now m.now world.new }
{
    if !is_with_code(t, 0) {
        return None;
    }
    world.complete(t, 0);
    Some(())
}

// The value of the communicator.
fn shown(t: &Tables, code: &ECode, m: &EMach, world: &World) -> Option<Value>
    requires { CanRun t.now code.now m.now world.now }
{
    if !is_int(t, 1) {
        return None;
    }
    Some(world.value(1))
}

// A world and a machine before the first instant.
fn start(alloc: Global, t: &Tables, code: &ECode) -> Option<(EMach, World)>
    requires formed { KeptApart t.now 12 }
    requires fits { FitPlaces t.now }
    requires spells { Spells t.now code.now }
    requires instrs { length code.now.instrs ≤ 4294967295 }
    ensures { IfSome result (λ r. CanRun t.now code.now r.0 r.1) }
{
    let world = World::new(alloc, t).ok()?;
    let m = EMach::new(alloc, t, code).ok()?;
    Some((m, world))
}

// The code of the tables.
fn code_of(alloc: Global, t: &Tables) -> Option<ECode>
    ensures spells { IfSome result (λ code. Spells t.now code) }
    ensures instrs { IfSome result (λ code. length code.instrs ≤ 4294967295) }
{
    if !keeps_offsets(t) {
        return None;
    }
    match generate_e(alloc, t) {
        Ok(code) => if code.instrs.as_slice().len() <= 65_535 {
            Some(code)
        } else {
            None
        },
        Err(_) => None,
    }
}

const TOLD: [(Time, u32, EInstr); 10] = [
    (0, 0, EInstr::Enter { mode: 0 }),
    (
        0,
        1,
        EInstr::Future {
            delay: 10,
            phase: 1,
            target: 5,
        },
    ),
    (
        0,
        2,
        EInstr::Future {
            delay: 0,
            phase: 3,
            target: 7,
        },
    ),
    (
        0,
        3,
        EInstr::Future {
            delay: 20,
            phase: 2,
            target: 10,
        },
    ),
    (0, 4, EInstr::Return),
    (0, 7, EInstr::CallRead { inv: 0, input: 0 }),
    (0, 8, EInstr::Release { inv: 0 }),
    (0, 9, EInstr::Return),
    (10, 5, EInstr::CallWrite { inv: 0, output: 0 }),
    (10, 6, EInstr::Return),
];

// The module's mode, and the next instant.
fn state_of(m: &EMach) -> (Option<u16>, Option<Time>) {
    (m.mode(0), m.next())
}

// Instant 0, where the sensor shows 3.
fn first(
    m: &mut EMach,
    t: &Tables,
    code: &ECode,
    world: &mut World,
    told: &mut Vec<(Time, u32, EInstr)>,
) -> Option<()>
    requires { CanRun t.now code.now m.old world.old }
    ensures { CanRun t.now code.now m.new world.new }
{
    show(t, code, m, world, 3)?;
    do_instant(m, t, code, world, 0, told)
}

// The job finishes, where the sensor shows 5; then instant 10.
fn second(
    m: &mut EMach,
    t: &Tables,
    code: &ECode,
    world: &mut World,
    told: &mut Vec<(Time, u32, EInstr)>,
) -> Option<()>
    requires { CanRun t.now code.now m.old world.old }
    ensures { CanRun t.now code.now m.new world.new }
{
    show(t, code, m, world, 5)?;
    finish(t, code, m, world)?;
    do_instant(m, t, code, world, 10, told)
}

// The mode, the next instant and the value.
type State = (Option<u16>, Option<Time>, Value);

fn state_with_value(t: &Tables, code: &ECode, m: &EMach, world: &World) -> Option<State>
    requires { CanRun t.now code.now m.now world.now }
{
    let value = shown(t, code, m, world)?;
    let (mode, next) = state_of(m);
    Some((mode, next, value))
}

// The states before instant 0 and behind each instant.
type States = [State; 3];

fn play(
    m: &mut EMach,
    t: &Tables,
    code: &ECode,
    world: &mut World,
    told: &mut Vec<(Time, u32, EInstr)>,
) -> Option<States>
    requires { CanRun t.now code.now m.old world.old }
{
    let began = state_with_value(t, code, m, world)?;
    first(m, t, code, world, told)?;
    let one = state_with_value(t, code, m, world)?;
    second(m, t, code, world, told)?;
    let two = state_with_value(t, code, m, world)?;
    Some([began, one, two])
}

fn play_from(
    t: &Tables,
    code: &ECode,
    started: (EMach, World),
    told: &mut Vec<(Time, u32, EInstr)>,
) -> Option<States>
    requires { CanRun t.now code.now started.0 started.1 }
{
    let (mut m, mut world) = started;
    play(&mut m, t, code, &mut world, told)
}

fn run_code(
    alloc: Global,
    t: &Tables,
    code: &ECode,
    told: &mut Vec<(Time, u32, EInstr)>,
) -> Option<States>
    requires formed { KeptApart t.now 12 }
    requires fits { FitPlaces t.now }
    requires spells { Spells t.now code.now }
    requires instrs { length code.now.instrs ≤ 4294967295 }
{
    let started = start(alloc, t, code)?;
    play_from(t, code, started, told)
}

fn run_on(alloc: Global, t: &Tables, told: &mut Vec<(Time, u32, EInstr)>) -> Option<States>
    requires { FitPlaces t.now }
{
    if !is_formed(t) {
        return None;
    }
    let code = code_of(alloc, t)?;
    run_code(alloc, t, &code, told)
}

// In each 20 ticks `dbl` writes twice of the sensor at 0 to the communicator, 0 at first, at 10.
const FROM_ZERO: Text = Text::Edited(DOUBLING, &[("init 7", "init 0")]);

// A run of two instants; what is done is put behind what is told.
fn run(alloc: Global, told: &mut Vec<(Time, u32, EInstr)>) -> Option<States> {
    let t = made_of(alloc, FROM_ZERO)?;
    run_on(alloc, &t, told)
}

const STATES: States = [
    (None, Some(0), 0),
    (Some(0), Some(10), 0),
    (Some(0), Some(20), 6),
];

#[test]
fn one_invocation(rt: HostRuntime) {
    let mut told = Vec::new(rt.alloc());
    same(&rt, run(rt.alloc(), &mut told), Some(STATES));
    holds(&rt, told.as_slice() == &TOLD[..]);
}
