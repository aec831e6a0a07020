// What a file holds: plain lists, before they are tables.
ghost use Rattle.std.specs.Prelude.{◌≡◌, map};
ghost use Rattle.htl_model.specs.Ranges.{AreInRange};
ghost use Rattle.htl_model.specs.Tables.{fun_of};
ghost use Rattle.htl_object.specs.Lists.{object_from, tables_from};

use crate::object::Object;
use htl_base::{Name, Seq};
use htl_ecode::{ECode, EInstr};
use htl_model::{Code, Comm, Function, Inv, Mode, Module, Parts, Port, Switch, Tables, Task};
use htl_walk::Schedule;

/// The addresses of a mode in E code.
#[derive(Clone, Copy, Drop)]
pub struct Anchors {
    pub enter: u32,
    pub begin: u32,
    pub decide: u32,
}

/// How many items the tables have.
#[derive(Clone, Copy, Drop)]
pub struct Counts {
    pub comms: u16,
    pub modes: u16,
    pub modules: u16,
    pub ports: u16,
    pub tasks: u16,
    pub invs: u16,
    pub switches: u16,
}

/// The lists of a file.
pub struct Lists {
    pub comms: Seq<Comm>,
    pub modes: Seq<Mode>,
    pub modules: Seq<Module>,
    pub ports: Seq<Port>,
    pub tasks: Seq<Task>,
    pub invs: Seq<Inv>,
    pub switches: Seq<Switch>,
    pub functions: Seq<Code>,
    /// By mode.
    pub anchors: Seq<Anchors>,
    pub instrs: Seq<EInstr>,
    pub schedules: Seq<Schedule>,
    pub platform: Option<Name>,
}

impl Drop for Lists {
    fn drop(self) {
        let Self {
            comms: _,
            modes: _,
            modules: _,
            ports: _,
            tasks: _,
            invs: _,
            switches: _,
            functions: _,
            anchors: _,
            instrs: _,
            schedules: _,
            platform: _,
        } = self;
    }
}

impl Lists {
    /// The object with these functions, and with the addresses of this E code.
    pub fn into_object(self, functions: Vec<Function>, mut ecode: ECode) -> Object
        requires { AreInRange (tables_from self (map fun_of functions.items)) }
        ensures { result ≡ object_from self (map fun_of functions.items) ecode.enter ecode.begin ecode.decide }
    {
        let Self {
            comms,
            modes,
            modules,
            ports,
            tasks,
            invs,
            switches,
            functions: _,
            anchors: _,
            instrs,
            schedules,
            platform,
        } = self;
        ecode.instrs = instrs;
        let tables = Tables::new(Parts {
            comms,
            modes,
            modules,
            ports,
            tasks,
            invs,
            switches,
            functions: Seq::new(functions),
        });
        Object {
            tables,
            ecode,
            schedules,
            platform,
        }
    }
}
