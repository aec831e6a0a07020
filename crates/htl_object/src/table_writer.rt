// Items of tables at the end of bytes.
use crate::bytes::Bytes;
use crate::writer::{
    Spelled, put_count, put_flag, put_list, put_name, put_option, put_value, put16, put32,
};
use htl_base::Ty;
use htl_model::{Comm, End, Inv, Mode, Module, Port, Switch, Task};

impl Spelled for Ty {
    ghost use Rattle.htl_object.specs.Fields.{type_bytes};

    ghost spelling = { type_bytes };

    ghost keeps = { λ _. Unit {0} };

    fn put(&self, out: &mut Bytes) {
        match self {
            Ty::Int => out.push(0),
            Ty::Bool => out.push(1),
        }
    }
}

impl Spelled for Comm {
    ghost use Rattle.htl_object.specs.Comms.{comm_bytes};
    ghost use Rattle.std.specs.Prelude.{◌≡◌, true, FitsSigned};
    ghost use Rattle.std.specs.Int.{w64};
    ghost use Rattle.htl_base.specs.Names.{is_name};

    ghost spelling = { comm_bytes };

    ghost keeps = { λ c. (is_name c.name ≡ true) × FitsSigned w64 c.init };

    fn put(&self, out: &mut Bytes) {
        put_name(out, &self.name);
        self.ty.put(out);
        put_flag(out, self.sensor);
        put32(out, self.period);
        put_value(out, &self.init);
    }
}

impl Spelled for Mode {
    ghost use Rattle.htl_object.specs.Modes.{mode_bytes};
    ghost use Rattle.std.specs.Prelude.{◌≡◌, true};
    ghost use Rattle.htl_base.specs.Names.{is_name};

    ghost spelling = { mode_bytes };

    ghost keeps = { λ x. is_name x.name ≡ true };

    fn put(&self, out: &mut Bytes) {
        put_name(out, &self.name);
        put16(out, self.module);
        put32(out, self.period);
    }
}

impl Spelled for Module {
    ghost use Rattle.htl_object.specs.Modules.{module_bytes};
    ghost use Rattle.std.specs.Prelude.{◌≡◌, true};
    ghost use Rattle.htl_base.specs.Names.{is_name};

    ghost spelling = { module_bytes };

    ghost keeps = { λ x. is_name x.name ≡ true };

    fn put(&self, out: &mut Bytes) {
        put_name(out, &self.name);
        put_option(out, self.parent);
        put16(out, self.start);
    }
}

impl Spelled for Port {
    ghost use Rattle.htl_object.specs.Ports.{port_bytes};
    ghost use Rattle.std.specs.Prelude.{◌≡◌, true};
    ghost use Rattle.htl_base.specs.Names.{is_name};

    ghost spelling = { port_bytes };

    ghost keeps = { λ x. is_name x.name ≡ true };

    fn put(&self, out: &mut Bytes) {
        put_name(out, &self.name);
        put16(out, self.mode);
        self.ty.put(out);
    }
}

impl Spelled for Task {
    ghost use Rattle.htl_object.specs.Ports.{task_bytes};
    ghost use Rattle.std.specs.Prelude.{◌≡◌, true};
    ghost use Rattle.htl_base.specs.Names.{is_name};

    ghost spelling = { task_bytes };

    ghost keeps = { λ x. is_name x.name ≡ true };

    fn put(&self, out: &mut Bytes) {
        put_name(out, &self.name);
        put16(out, self.module);
        put_flag(out, self.is_abstract);
        put32(out, self.worst);
        put_list(out, self.inputs.as_slice());
        put_list(out, self.outputs.as_slice());
    }
}

impl Spelled for End {
    ghost use Rattle.htl_object.specs.Invocations.{end_bytes};

    ghost spelling = { end_bytes };

    ghost keeps = { λ _. Unit {0} };

    fn put(&self, out: &mut Bytes) {
        match *self {
            End::Comm { comm, instance } => {
                out.push(0);
                put16(out, comm);
                put32(out, instance);
            }
            End::Port { port } => {
                out.push(1);
                put16(out, port);
            }
        }
    }
}

impl Spelled for Inv {
    ghost use Rattle.htl_object.specs.Invocations.{inv_bytes};

    ghost spelling = { inv_bytes };

    ghost keeps = { λ _. Unit {0} };

    fn put(&self, out: &mut Bytes) {
        put16(out, self.mode);
        put16(out, self.task);
        put_option(out, self.parent);
        put_list(out, self.reads.as_slice());
        put_list(out, self.writes.as_slice());
    }
}

impl Spelled for u16 {
    ghost use Rattle.std.specs.Int.{w16, to_be_bytes};

    ghost spelling = { to_be_bytes w16 };

    ghost keeps = { λ _. Unit {0} };

    fn put(&self, out: &mut Bytes) {
        put16(out, *self)
    }
}

// A count, by its two low bytes.
impl Spelled for usize {
    ghost use Rattle.std.specs.Int.{w16, to_be_bytes};

    ghost spelling = { to_be_bytes w16 };

    ghost keeps = { λ _. Unit {0} };

    fn put(&self, out: &mut Bytes) {
        put_count(out, *self);
    }
}

impl Spelled for Switch {
    ghost use Rattle.htl_object.specs.Invocations.{switch_bytes};

    ghost spelling = { switch_bytes };

    ghost keeps = { λ _. Unit {0} };

    fn put(&self, out: &mut Bytes) {
        put16(out, self.mode);
        put16(out, self.target);
        put_list(out, self.reads.as_slice());
    }
}
