// The lists of tables; each is one step.
ghost use Rattle.std.specs.Prelude.{◌≡◌};
ghost use Rattle.htl_model.specs.Ranges.{AreInRange};

use htl_model::{Comm, Inv, Mode, Module, Port, Switch, Tables, Task};

pub(crate) fn modules(t: &Tables) -> &[Module]
    ensures value { result.now ≡ t.now.modules }
    ensures ranges { AreInRange t.now }
{
    t.parts().modules.as_slice()
}

pub(crate) fn modes(t: &Tables) -> &[Mode]
    ensures value { result.now ≡ t.now.modes }
    ensures ranges { AreInRange t.now }
{
    t.parts().modes.as_slice()
}

pub(crate) fn ports(t: &Tables) -> &[Port]
    ensures value { result.now ≡ t.now.ports }
    ensures ranges { AreInRange t.now }
{
    t.parts().ports.as_slice()
}

pub(crate) fn tasks(t: &Tables) -> &[Task]
    ensures value { result.now ≡ t.now.tasks }
    ensures ranges { AreInRange t.now }
{
    t.parts().tasks.as_slice()
}

pub(crate) fn invs(t: &Tables) -> &[Inv]
    ensures value { result.now ≡ t.now.invs }
    ensures ranges { AreInRange t.now }
{
    t.parts().invs.as_slice()
}

pub(crate) fn switches(t: &Tables) -> &[Switch]
    ensures value { result.now ≡ t.now.switches }
    ensures ranges { AreInRange t.now }
{
    t.parts().switches.as_slice()
}

pub(crate) fn comms(t: &Tables) -> &[Comm]
    ensures value { result.now ≡ t.now.comms }
    ensures ranges { AreInRange t.now }
{
    t.parts().comms.as_slice()
}
