// The tables of a program.
ghost use Rattle.std.specs.Prelude.{◌≡◌};
ghost use Rattle.htl_model.specs.Ranges.{AreInRange};
ghost use Rattle.htl_model.specs.Tables.{tables_of};

use crate::Parts;
use std::marker::Model;

/// The flat lists of a program within their ranges. Contracts see them as one plain record of lists, free
/// of pointers.
pub struct Tables {
    parts: Parts,
}

impl Drop for Tables {
    fn drop(self) {
        let Self { parts: _ } = self;
    }
}

impl Model for Tables {
    ghost use Rattle.htl_model.specs.Tables.{Tables as Plain, tables_of};
    ghost use Rattle.htl_model.specs.TablesCode.{fun_code};
    ghost use Rattle.htl_model.specs.Ranges.{AreInRange};
    ghost use Rattle.htl_model.specs.contracts.parts.Comm as comm;
    ghost use Rattle.htl_model.specs.contracts.parts.Mode as mode;
    ghost use Rattle.htl_model.specs.contracts.parts.Module as owner;
    ghost use Rattle.htl_model.specs.contracts.parts.Port as port;
    ghost use Rattle.htl_model.specs.contracts.parts.Task as task;
    ghost use Rattle.htl_model.specs.contracts.parts.Inv as inv;
    ghost use Rattle.htl_model.specs.contracts.parts.Switch as switch;
    ghost use Rattle.std.specs.Coded.{codes};

    ghost Value = { Plain };

    ghost coded = { Prim.hlevel (codes, fun_code, comm.the_row.coded, mode.the_row.coded, owner.the_row.coded, port.the_row.coded, task.the_row.coded, inv.the_row.coded, switch.the_row.coded) };

    ghost view = { λ t. tables_of t.parts };

    ghost invariant = { λ t. AreInRange (tables_of t.parts) };
}

impl Tables {
    /// The tables of these lists, which are within their ranges.
    pub fn new(parts: Parts) -> Tables
        requires { AreInRange (tables_of parts) }
        ensures { result ≡ tables_of parts }
    {
        Tables { parts }
    }

    /// States that the lists are within their ranges; there is nothing to run.
    pub fn keeps_ranges(&self)
        ensures ranges { AreInRange self.now }
    {
        self.parts();
    }

    /// The lists.
    pub fn parts(&self) -> &Parts
        ensures value { self.now ≡ tables_of result.now }
        ensures ranges { AreInRange self.now }
    {
        &self.parts
    }

    /// The lists, given back.
    pub fn into_parts(self) -> Parts
        ensures value { self ≡ tables_of result }
        ensures ranges { AreInRange self }
    {
        let Self { parts } = self;
        parts
    }
}
