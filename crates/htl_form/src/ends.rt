// The tests of the rules on the ends of invocations.
ghost use Rattle.std.specs.Prelude.{◌≡◌, ◌*◌, Some, length, slice_get, option_map};
ghost use Rattle.htl_model.specs.EndRules.{input_types as input_types_of, output_types as output_types_of, type_number as type_number_of, end_type as end_type_of, is_sensor as is_sensor_of};
ghost use Rattle.htl_model.specs.Found.{unless as unless_of};
ghost use Rattle.htl_form.specs.EndFaults.{read_offset_fault as read_offset_fault_of, write_offset_fault as write_offset_fault_of, unless_equal as unless_equal_of, count_fault as count_fault_of, type_fault as type_fault_of, sensor_fault as sensor_fault_of};

use htl_base::Ty;
use htl_model::lookup::{comm_period, mode_period};
use htl_model::{End, Inv, Tables};

// Nothing where it holds, else what there is and what there ought to be.
fn unless(holds: bool, have: u64, need: u64) -> Option<(u64, u64)>
    ensures { result ≡ unless_of holds have need }
{
    if holds { None } else { Some((have, need)) }
}

/// Rule 4 at an input.
pub fn read_offset_fault(t: &Tables, inv: &Inv, end: End) -> Option<(u64, u64)>
    ensures { result ≡ read_offset_fault_of t.now inv.now end }
{
    match end {
        End::Comm { comm, instance } => {
            let offset = instance as u64 * comm_period(t, comm) as u64;
            let period = mode_period(t, inv.mode) as u64;
            unless(offset < period, offset, period)
        }
        End::Port { .. } => None,
    }
}

/// Rule 4 at an output.
pub fn write_offset_fault(t: &Tables, inv: &Inv, end: End) -> Option<(u64, u64)>
    ensures { result ≡ write_offset_fault_of t.now inv.now end }
{
    match end {
        End::Comm { comm, instance } => {
            let offset = instance as u64 * comm_period(t, comm) as u64;
            let period = mode_period(t, inv.mode) as u64;
            unless(0 < offset && !(period < offset), offset, period)
        }
        End::Port { .. } => None,
    }
}

/// The types of a task's inputs; none where there is no such task.
pub fn input_types(t: &Tables, task: u16) -> &[Ty]
    ensures { result.now ≡ input_types_of t.now task }
{
    let tasks = t.parts().tasks.as_slice();
    if (task as usize) < tasks.len() {
        tasks[task as usize].inputs.as_slice()
    } else {
        &[]
    }
}

/// The types of a task's outputs; none where there is no such task.
pub fn output_types(t: &Tables, task: u16) -> &[Ty]
    ensures { result.now ≡ output_types_of t.now task }
{
    let tasks = t.parts().tasks.as_slice();
    if (task as usize) < tasks.len() {
        tasks[task as usize].outputs.as_slice()
    } else {
        &[]
    }
}

fn unless_equal(have: u64, need: u64) -> Option<(u64, u64)>
    ensures { result ≡ unless_equal_of have need }
{
    unless(have == need, have, need)
}

/// Rule 5 at an invocation: how many inputs, then how many outputs.
pub fn count_fault(t: &Tables, inv: &Inv) -> Option<(u64, u64)>
    ensures { result ≡ count_fault_of t.now inv.now }
{
    let reads = inv.reads.as_slice().len() as u64;
    let inputs = input_types(t, inv.task).len() as u64;
    if reads != inputs {
        return Some((reads, inputs));
    }
    let writes = inv.writes.as_slice().len() as u64;
    let outputs = output_types(t, inv.task).len() as u64;
    unless_equal(writes, outputs)
}

fn type_number(ty: Ty) -> u64
    ensures { result ≡ type_number_of ty }
{
    match ty {
        Ty::Int => 0,
        Ty::Bool => 1,
    }
}

/// The type of what an end names.
fn end_type(t: &Tables, end: End) -> Option<Ty>
    ensures { result ≡ end_type_of t.now end }
{
    match end {
        End::Comm { comm, .. } => {
            let comms = t.parts().comms.as_slice();
            if (comm as usize) < comms.len() {
                Some(comms[comm as usize].ty)
            } else {
                None
            }
        }
        End::Port { port } => {
            let ports = t.parts().ports.as_slice();
            if (port as usize) < ports.len() {
                Some(ports[port as usize].ty)
            } else {
                None
            }
        }
    }
}

/// Rule 5 at the end at a place, where the task has these types.
pub fn type_fault(t: &Tables, types: &[Ty], j: usize, end: End) -> Option<(u64, u64)>
    ensures { result ≡ type_fault_of t.now types.now j end }
{
    let Some(ty) = end_type(t, end) else {
        return None;
    };
    if j >= types.len() {
        return None;
    }
    unless_equal(type_number(ty), type_number(types[j]))
}

fn is_sensor(t: &Tables, comm: u16) -> bool
    ensures { result ≡ is_sensor_of t.now comm }
{
    let comms = t.parts().comms.as_slice();
    if (comm as usize) < comms.len() {
        comms[comm as usize].sensor
    } else {
        false
    }
}

/// Rule 11 at an output and its place.
pub fn sensor_fault(t: &Tables, j: usize, end: End) -> Option<(u64, u64)>
    ensures { result ≡ sensor_fault_of t.now j end }
{
    match end {
        End::Comm { comm, .. } => if !is_sensor(t, comm) {
            None
        } else {
            Some((j as u64, 0))
        },
        End::Port { .. } => None,
    }
}
