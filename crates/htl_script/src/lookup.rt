// What names in a script mean.
ghost use Rattle.std.specs.Prelude.{◌≡◌};
ghost use Rattle.htl_model.specs.Tables.{tables_of};
ghost use Rattle.htl_script.specs.Judging.{sensor_of, type_of, invocation_of, worst_of};
ghost use Rattle.htl_script.specs.Orders.{IsIndex};

use crate::index::Index;
use crate::naming::Named;
use htl_base::{Time, Ty};
use htl_model::{Parts, Tables};
use std::marker::Model;

/// Tables, and their names in order. Contracts see the tables.
#[derive(Drop)]
pub struct Names<'a> {
    tables: &'a Tables,
    index: &'a Index,
}

impl<'a> Model for Names<'a> {
    ghost use Rattle.htl_model.specs.Tables.{Tables as TablesOf};
    ghost use Rattle.htl_script.specs.Orders.{IsIndex};
    ghost use Rattle.htl_model.specs.contracts.tables.Tables as tables_row;

    ghost Value = { TablesOf };

    ghost coded = { tables_row.the_row.coded };

    ghost view = { λ n. n.tables.now };

    ghost invariant = { λ n. IsIndex n.tables.now n.index.now };
}

impl<'a> Names<'a> {
    /// Tables with their own index.
    pub fn new(tables: &'a Tables, index: &'a Index) -> Names<'a>
        requires { IsIndex tables.now index.now }
        ensures { result ≡ tables.now }
    {
        Names { tables, index }
    }

    /// The number of the sensor with this name.
    pub fn sensor(&self, name: &[u8]) -> Option<u16>
        ensures { result ≡ sensor_of self.now name.now }
    {
        self.index.sensors.find(self.tables, Named::Sensor, name)
    }

    /// The number of the concrete invocation with this name, MODULE.MODE.TASK.
    pub fn invocation(&self, name: &[u8]) -> Option<u16>
        ensures { result ≡ invocation_of self.now name.now }
    {
        self.index
            .invocations
            .find(self.tables, Named::Invocation, name)
    }

    /// The worst case of an invocation's task, in ticks.
    pub fn worst(&self, inv: u16) -> Time
        ensures { result ≡ worst_of self.now inv }
    {
        worst_in(self.tables.parts(), inv)
    }

    /// The type of a communicator.
    pub fn type_of(&self, comm: u16) -> Option<Ty>
        ensures { result ≡ type_of self.now comm }
    {
        type_in(self.tables.parts(), comm)
    }
}

// The worst case of an invocation's task, in ticks.
fn worst_in(parts: &Parts, inv: u16) -> Time
    ensures { result ≡ worst_of (tables_of parts.now) inv }
{
    let Some(inv) = parts.invs.as_slice().get(inv as usize) else {
        return 0;
    };
    match parts.tasks.as_slice().get(inv.task as usize) {
        Some(task) => task.worst as u64,
        None => 0,
    }
}

// The type of a communicator.
fn type_in(parts: &Parts, comm: u16) -> Option<Ty>
    ensures { result ≡ type_of (tables_of parts.now) comm }
{
    parts.comms.as_slice().get(comm as usize).map(|c| c.ty)
}
