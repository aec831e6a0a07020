// Where the tables' ports and functions stand, and which communicators are sensors.
ghost use Rattle.std.specs.Prelude.{◌≡◌, ◌<◌, ◌≤◌, length, map, slice_get, All, IfOk, IfSome};
ghost use Rattle.htl_base.specs.declared.limits.TheConstants as limit;
ghost use Rattle.htl_model.specs.Lists.{list_to};
ghost use Rattle.htl_model.specs.Tables.{count_before, function_count, output_function, switch_function};
ghost use Rattle.htl_model.specs.Meaning.{writer_from};
ghost use Rattle.htl_emach.specs.Calendars.{list_at};
ghost use Rattle.htl_emach.specs.Indices.{first_functions, is_own, index_of, sensor_type as sensor_type_of};

use crate::writers::port_writers;
use htl_base::{Seq, Ty};
use htl_model::lookup::{function_count, functions_before};
use htl_model::port_ends::port_writer;
use htl_model::{Comm, Tables, Task};
use std::alloc::{AllocError, Global};
use std::marker::Model;

/// The first function of each task, how many functions the tasks have, the writer of each port in its mode, and the type of
/// each communicator that is a sensor.
pub struct Index {
    firsts: Seq<u32>,
    count: u32,
    writers: Seq<Option<(u16, u16)>>,
    sensors: Seq<Option<Ty>>,
}

impl Drop for Index {
    fn drop(self) {
        let Self {
            firsts: _,
            count: _,
            writers: _,
            sensors: _,
        } = self;
    }
}

impl Model for Index {
    ghost use Rattle.htl_emach.specs.Indices.{Indices};

    ghost Value = { Indices };

    ghost view = { λ i. record { firsts = i.firsts; count = i.count; writers = i.writers; sensors = i.sensors } };
}

impl Index {
    /// The index of these tables. All memory is taken here.
    pub fn new(alloc: Global, t: &Tables) -> Result<Index, AllocError>
        ensures { IfOk result (λ i. i ≡ index_of t.now) }
    {
        let firsts = firsts(alloc, t)?;
        let writers = port_writers(alloc, t)?;
        let sensors = sensor_types(alloc, t)?;
        Ok(Index {
            firsts: Seq::new(firsts),
            count: count(t),
            writers,
            sensors: Seq::new(sensors),
        })
    }

    /// The type of a sensor; None of another communicator, and of none.
    pub fn sensor(&self, comm: u16) -> Option<Ty>
        ensures { result ≡ list_at self.now.sensors comm }
    {
        let sensors = self.sensors.as_slice();
        if (comm as usize) < sensors.len() {
            sensors[comm as usize]
        } else {
            None
        }
    }

    // The first function of a task, which is in range.
    fn first(&self, t: &Tables, task: u16) -> u32
        requires known { task < length t.now.tasks }
        requires index { self.now ≡ index_of t.now }
        ensures value { result ≡ count_before task t.now.tasks }
        ensures few { result ≤ 1048576 }
    {
        t.keeps_ranges();
        self.firsts.as_slice()[task as usize]
    }

    // How many functions the tasks have.
    fn task_functions(&self, t: &Tables) -> u32
        requires index { self.now ≡ index_of t.now }
        ensures value { result ≡ count_before (length t.now.tasks) t.now.tasks }
        ensures few { result ≤ 1048576 }
    {
        t.keeps_ranges();
        self.count
    }

    /// The number of the function of an output of a concrete task; both are in range.
    pub fn output_function(&self, t: &Tables, task: u16, output: u16) -> u32
        requires index { self.now ≡ index_of t.now }
        requires task { task < length t.now.tasks }
        requires output { IfSome (slice_get t.now.tasks task) (λ k. output < function_count k) }
        ensures value { result ≡ output_function t.now task output }
        ensures within { result < length t.now.functions }
    {
        t.keeps_ranges();
        self.first(t, task) + output as u32
    }

    /// The number of the function of a switch, which is in range.
    pub fn switch_function(&self, t: &Tables, switch: u16) -> u32
        requires index { self.now ≡ index_of t.now }
        requires known { switch < length t.now.switches }
        ensures value { result ≡ switch_function t.now switch }
        ensures within { result < length t.now.functions }
    {
        t.keeps_ranges();
        self.task_functions(t) + switch as u32
    }

    /// The writer of a port in a mode, and the place of its output. It is at hand where the mode is the port's own.
    pub fn writer(&self, t: &Tables, mode: u16, port: u16) -> Option<(u16, u16)>
        requires index { self.now ≡ index_of t.now }
        ensures { result ≡ writer_from mode port 0 t.now.invs }
    {
        if is_own(t, mode, port) {
            self.writers.as_slice()[port as usize]
        } else {
            t.keeps_ranges();
            port_writer(mode, port, t.parts().invs.as_slice())
        }
    }
}

// Whether a port is one of a mode.
fn is_own(t: &Tables, mode: u16, port: u16) -> bool
    ensures { result ≡ is_own t.now mode port }
{
    let ports = t.parts().ports.as_slice();
    if (port as usize) < ports.len() {
        ports[port as usize].mode == mode
    } else {
        false
    }
}

// The first function of each task.
fn firsts(alloc: Global, t: &Tables) -> Result<Vec<u32>, AllocError>
    ensures { IfOk result (λ xs. xs.items ≡ first_functions t.now) }
{
    t.keeps_ranges();
    sums(alloc, t.parts().tasks.as_slice())
}

// How many functions the tasks below each place have.
fn sums(alloc: Global, tasks: &[Task]) -> Result<Vec<u32>, AllocError>
    requires few { length tasks.now ≤ limit.MAX_TASKS }
    requires outputs { All (λ k. length k.outputs ≤ limit.MAX_ENDS) tasks.now }
    ensures { IfOk result (λ xs. xs.items ≡ list_to (λ k. count_before k tasks.now) (length tasks.now)) }
{
    let mut list = Vec::new(alloc);
    let mut sum = 0u32;
    for k in 0..tasks.len() {
        list.push(sum)?;
        sum += function_count(&tasks[k]);
    }
    Ok(list)
}

// How many functions the tasks have.
fn count(t: &Tables) -> u32
    ensures { result ≡ count_before (length t.now.tasks) t.now.tasks }
{
    t.keeps_ranges();
    let tasks = t.parts().tasks.as_slice();
    functions_before(tasks, tasks.len())
}

// The type of a sensor; None of another communicator.
fn sensor_type(comm: &Comm) -> Option<Ty>
    ensures { result ≡ sensor_type_of comm.now }
{
    if comm.sensor { Some(comm.ty) } else { None }
}

// The types of the sensors.
fn sensor_types(alloc: Global, t: &Tables) -> Result<Vec<Option<Ty>>, AllocError>
    ensures { IfOk result (λ v. v.items ≡ map sensor_type_of t.now.comms) }
{
    let comms = t.parts().comms.as_slice();
    let mut types = Vec::new(alloc);
    for k in 0..comms.len() {
        types.push(sensor_type(&comms[k]))?;
    }
    Ok(types)
}
