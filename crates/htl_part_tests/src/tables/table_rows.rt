// The flat tables of sources, written by hand.
use htl_base::Ty;
use htl_samples::samples;

// An instance of a communicator, or a port, by number.
#[derive(Clone, Copy)]
pub enum Place {
    At(u16, u32),
    Port(u16),
}

// Name, type, sensor, period, initial value.
pub type CommRow = (&'static str, Ty, bool, u32, i64);
// Name, parent mode, start mode.
pub type ModuleRow = (&'static str, Option<u16>, u16);
// Name, module, period.
pub type ModeRow = (&'static str, u16, u32);
// Name, mode, type.
pub type PortRow = (&'static str, u16, Ty);
// Name, module, abstract, worst case, types of inputs and outputs.
pub type TaskRow = (&'static str, u16, bool, u32, &'static [Ty], &'static [Ty]);
// Mode, task, parent, reads, writes.
pub type InvRow = (u16, u16, Option<u16>, &'static [Place], &'static [Place]);
// Mode, target, communicators that are read.
pub type SwitchRow = (u16, u16, &'static [u16]);

// A source and its lists.
#[derive(Clone, Copy)]
pub struct Source {
    pub text: &'static str,
    pub comms: &'static [CommRow],
    pub modules: &'static [ModuleRow],
    pub modes: &'static [ModeRow],
    pub ports: &'static [PortRow],
    pub tasks: &'static [TaskRow],
    pub invs: &'static [InvRow],
    pub switches: &'static [SwitchRow],
    pub functions: usize,
}

pub const ONE_DOUBLING_TASK: Source = Source {
    text: samples::DOUBLING,
    comms: &[("s", Ty::Int, true, 10, 0), ("u", Ty::Int, false, 10, 7)],
    modules: &[("M", None, 0)],
    modes: &[("m", 0, 20)],
    ports: &[],
    tasks: &[("dbl", 0, false, 4, &[Ty::Int], &[Ty::Int])],
    invs: &[(0, 0, None, &[Place::At(0, 0)], &[Place::At(1, 1)])],
    switches: &[],
    functions: 1,
};

pub const NO_TASK: Source = Source {
    text: "program P {
  communicator int u period 2 init -7;
  module M start m { mode m period 10 { } }
}",
    comms: &[("u", Ty::Int, false, 2, -7)],
    modules: &[("M", None, 0)],
    modes: &[("m", 0, 10)],
    ports: &[],
    tasks: &[],
    invs: &[],
    switches: &[],
    functions: 0,
};

pub const PREEMPTION: Source = Source {
    text: samples::TWO_JOBS,
    comms: &[
        ("x", Ty::Int, false, 2, 1),
        ("y", Ty::Int, false, 2, 0),
        ("z", Ty::Int, false, 10, 0),
    ],
    modules: &[("M", None, 0)],
    modes: &[("m", 0, 10)],
    ports: &[],
    tasks: &[
        ("a", 0, false, 7, &[Ty::Int], &[Ty::Int]),
        ("b", 0, false, 3, &[Ty::Int], &[Ty::Int]),
    ],
    invs: &[
        (0, 0, None, &[Place::At(0, 0)], &[Place::At(2, 1)]),
        (0, 1, None, &[Place::At(0, 1)], &[Place::At(1, 3)]),
    ],
    switches: &[],
    functions: 2,
};

pub const A_PORT: Source = Source {
    text: samples::PORT,
    comms: &[("x", Ty::Int, false, 10, 2), ("u", Ty::Int, false, 10, 0)],
    modules: &[("M", None, 0)],
    modes: &[("m", 0, 10)],
    ports: &[("k", 0, Ty::Int)],
    tasks: &[
        ("p", 0, false, 3, &[Ty::Int], &[Ty::Int]),
        ("q", 0, false, 4, &[Ty::Int], &[Ty::Int]),
    ],
    invs: &[
        (0, 1, None, &[Place::Port(0)], &[Place::At(1, 1)]),
        (0, 0, None, &[Place::At(0, 0)], &[Place::Port(0)]),
    ],
    switches: &[],
    functions: 2,
};

pub const A_REFINED_TASK: Source = Source {
    text: samples::SOMETIMES,
    comms: &[
        ("u", Ty::Int, false, 10, 3),
        ("w", Ty::Int, false, 10, 0),
        ("g", Ty::Bool, true, 10, 0),
    ],
    modules: &[("M", None, 0), ("N", Some(0), 1)],
    modes: &[("m", 0, 10), ("off", 1, 10), ("on", 1, 10)],
    ports: &[],
    tasks: &[
        ("plan", 0, true, 4, &[Ty::Int], &[Ty::Int]),
        ("fix", 0, false, 2, &[Ty::Int], &[Ty::Int]),
        ("fast", 1, false, 3, &[Ty::Int], &[Ty::Int]),
    ],
    invs: &[
        (0, 0, None, &[Place::At(1, 0)], &[Place::At(0, 1)]),
        (0, 1, None, &[Place::At(1, 0)], &[Place::At(1, 1)]),
        (2, 2, Some(0), &[Place::At(1, 0)], &[Place::At(0, 1)]),
    ],
    switches: &[(1, 2, &[2]), (2, 1, &[2])],
    functions: 4,
};

pub const A_LEFT_REFINEMENT: Source = Source {
    text: samples::REFINED,
    comms: &[("g", Ty::Bool, true, 10, 0), ("u", Ty::Int, false, 10, 0)],
    modules: &[("M", None, 0), ("N", Some(0), 2)],
    modes: &[
        ("m", 0, 10),
        ("rest", 0, 10),
        ("one", 1, 10),
        ("two", 1, 10),
    ],
    ports: &[],
    tasks: &[
        ("plan", 0, true, 4, &[], &[Ty::Int]),
        ("f", 1, false, 3, &[Ty::Int], &[Ty::Int]),
        ("h", 1, false, 4, &[Ty::Int], &[Ty::Int]),
    ],
    invs: &[
        (0, 0, None, &[], &[Place::At(1, 1)]),
        (2, 1, Some(0), &[Place::At(1, 0)], &[Place::At(1, 1)]),
        (3, 2, Some(0), &[Place::At(1, 0)], &[Place::At(1, 1)]),
    ],
    switches: &[(0, 1, &[0]), (1, 0, &[0]), (2, 3, &[1])],
    functions: 5,
};

pub const TWO_MODES: Source = Source {
    text: samples::TWO_MODES,
    comms: &[("g", Ty::Bool, true, 10, 0), ("u", Ty::Int, false, 10, 0)],
    modules: &[("M", None, 0)],
    modes: &[("one", 0, 10), ("two", 0, 10)],
    ports: &[],
    tasks: &[
        ("f", 0, false, 3, &[Ty::Int], &[Ty::Int]),
        ("h", 0, false, 4, &[Ty::Int], &[Ty::Int]),
    ],
    invs: &[
        (0, 0, None, &[Place::At(1, 0)], &[Place::At(1, 1)]),
        (1, 1, None, &[Place::At(1, 0)], &[Place::At(1, 1)]),
    ],
    switches: &[(0, 1, &[0]), (1, 0, &[0])],
    functions: 4,
};

pub const TWO_PERIODS: Source = Source {
    text: samples::TWO_PERIODS,
    comms: &[("u", Ty::Int, false, 10, 1), ("w", Ty::Int, false, 10, 0)],
    modules: &[("F", None, 0), ("G", None, 1)],
    modes: &[("m", 0, 10), ("m", 1, 20)],
    ports: &[],
    tasks: &[
        ("a", 0, false, 3, &[Ty::Int], &[Ty::Int]),
        ("b", 1, false, 9, &[Ty::Int], &[Ty::Int]),
    ],
    invs: &[
        (0, 0, None, &[Place::At(0, 0)], &[Place::At(0, 1)]),
        (1, 1, None, &[Place::At(0, 0)], &[Place::At(1, 2)]),
    ],
    switches: &[],
    functions: 2,
};

pub const TWO_TANKS: Source = Source {
    text: samples::TANKS,
    comms: &[
        ("h1", Ty::Int, true, 100, 0),
        ("h2", Ty::Int, true, 100, 0),
        ("u1", Ty::Int, false, 100, 0),
        ("u2", Ty::Int, false, 100, 0),
    ],
    modules: &[("T1", None, 0), ("C1", Some(0), 1), ("T2", None, 3)],
    modes: &[
        ("hold", 0, 500),
        ("p", 1, 500),
        ("pi", 1, 500),
        ("hold", 2, 500),
    ],
    ports: &[],
    tasks: &[
        ("ctrl", 0, true, 120, &[Ty::Int], &[Ty::Int]),
        ("prop", 1, false, 60, &[Ty::Int], &[Ty::Int]),
        ("damp", 1, false, 110, &[Ty::Int], &[Ty::Int]),
        ("direct", 2, false, 100, &[Ty::Int], &[Ty::Int]),
    ],
    invs: &[
        (0, 0, None, &[Place::At(0, 1)], &[Place::At(2, 4)]),
        (1, 1, Some(0), &[Place::At(0, 1)], &[Place::At(2, 4)]),
        (2, 2, Some(0), &[Place::At(0, 1)], &[Place::At(2, 4)]),
        (3, 3, None, &[Place::At(1, 1)], &[Place::At(3, 4)]),
    ],
    switches: &[(1, 2, &[2])],
    functions: 4,
};

// The programs stand in another order than in the tree.
pub const THREE_LEVELS: Source = Source {
    text: "program P {
  communicator bool a period 1 init true;
  module A start y {
    abstract task t input () output (bool o) worst 1;
    mode x period 1 program R { port bool p; invoke t input () output (p); }
    mode y period 1 program Q { port int p; port bool q; switch (b && a || b, x); }
  }
  module B start z { mode z period 1 { switch (true, z); } }
}
program S { module F start q { mode q period 1 { } } }
program Q {
  communicator bool b period 2 init false;
  module C start v { mode v period 1 { } }
  module D start u { task t input (int i, bool j) output () worst 1; mode u period 1 { } }
}
program R {
  communicator int c period 3 init -4;
  module E start w {
    task t input () output (bool o = true) worst 2;
    abstract task k input () output () worst 3;
    mode w period 1 program S {
      invoke k input () output ();
      invoke t input () output ((a, 1)) parent t;
    }
  }
}",
    comms: &[
        ("a", Ty::Bool, false, 1, 1),
        ("b", Ty::Bool, false, 2, 0),
        ("c", Ty::Int, false, 3, -4),
    ],
    modules: &[
        ("A", None, 1),
        ("E", Some(0), 2),
        ("F", Some(2), 3),
        ("C", Some(1), 4),
        ("D", Some(1), 5),
        ("B", None, 6),
    ],
    modes: &[
        ("x", 0, 1),
        ("y", 0, 1),
        ("w", 1, 1),
        ("q", 2, 1),
        ("v", 3, 1),
        ("u", 4, 1),
        ("z", 5, 1),
    ],
    ports: &[("p", 0, Ty::Bool), ("p", 1, Ty::Int), ("q", 1, Ty::Bool)],
    tasks: &[
        ("t", 0, true, 1, &[], &[Ty::Bool]),
        ("t", 1, false, 2, &[], &[Ty::Bool]),
        ("k", 1, true, 3, &[], &[]),
        ("t", 4, false, 1, &[Ty::Int, Ty::Bool], &[]),
    ],
    invs: &[
        (0, 0, None, &[], &[Place::Port(0)]),
        (2, 2, None, &[], &[]),
        (2, 1, Some(0), &[], &[Place::At(0, 1)]),
    ],
    switches: &[(1, 0, &[1, 0]), (6, 6, &[])],
    functions: 3,
};
