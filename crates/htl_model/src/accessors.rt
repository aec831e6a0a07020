// What the tables say of single items.
ghost use Rattle.std.specs.Prelude.{◌≡◌, ◌<◌, ◌≤◌, ◌-◌, ◌^◌, length, get_or, slice_get, min, IfSome, MatchOption};
ghost use Rattle.htl_model.specs.Chosen.{chosen as chosen_of};
ghost use Rattle.htl_model.specs.Selections.{selection_count, root_mode as root_mode_of, positions as positions_of, root_period as root_period_of};
ghost use Rattle.htl_model.specs.Tables.{release as release_of, window_end as window_end_of, function_count, output_function as output_function_of, switch_function as switch_function_of};

use crate::choice::{chosen_by, running_children};
use crate::lookup::functions_before;
use crate::selections::{choices, first_root, position_at, position_count, root_mode, root_period};
use crate::window::{release, window_end};
use crate::{Tables, Window};
use htl_base::Time;

impl Tables {
    /// The window of an invocation, which is in range. One pass over its reads and writes.
    pub fn window(&self, inv: u16) -> Window
        requires { inv < length self.now.invs }
        ensures release { IfSome (slice_get self.now.invs inv) (λ i. result.release ≡ release_of self.now i) }
        ensures end { IfSome (slice_get self.now.invs inv) (λ i. result.end ≡ window_end_of self.now i) }
    {
        let inv = &self.parts().invs.as_slice()[inv as usize];
        Window {
            release: release(self, inv),
            end: window_end(self, inv),
        }
    }

    /// The period of the first root module's first mode, in ticks; None exactly where there is no module. One pass over
    /// the modules and modes in front of it.
    pub fn period(&self) -> Option<Time>
        ensures value { result ≡ root_period_of self.now }
        ensures none { MatchOption result (length self.now.modules ≡ 0) (λ p. 0 < length self.now.modules) }
    {
        self.keeps_ranges();
        root_period(self)
    }

    /// How many root selections there are, capped at 4,294,967,295. One pass over the modules and modes.
    pub fn selections(&self) -> u32
        ensures { result ≡ min (selection_count self.now) (2 ^ 32 - 1) }
    {
        self.keeps_ranges();
        match first_root(self) {
            Some(_) => choices(self, 0).min(u32::MAX as u64) as u32,
            None => 0,
        }
    }

    /// The mode of a root module in a selection, where the first root module is the most significant place. Both are in
    /// range: the selection is below the number of selections, and the module is a root module. One pass over the modules
    /// and modes; `selections::root_modes` has the modes of all root modules for as much.
    pub fn root_mode(&self, selection: u32, module: u16) -> u16
        requires { «module» < length self.now.modules }
        ensures value { result ≡ root_mode_of self.now selection «module» }
        ensures within { result < length self.now.modes }
    {
        self.keeps_ranges();
        root_mode(self, selection, module)
    }

    /// How many positions a selection has, which is below the number of selections. One pass over the modules, modes and
    /// invocations.
    pub fn positions(&self, selection: u32) -> usize
        ensures { result ≡ length (positions_of self.now selection) }
    {
        self.keeps_ranges();
        position_count(self, selection)
    }

    /// The root invocation at position `p` of a selection, both in range: in the order of modules, then of the source. One
    /// pass over the modules, modes and invocations.
    pub fn position(&self, selection: u32, p: usize) -> u16
        requires { p < length (positions_of self.now selection) }
        ensures value { result ≡ get_or (positions_of self.now selection) p 0 }
        ensures within { result < length self.now.invs }
    {
        self.keeps_ranges();
        position_at(self, selection, p)
    }

    /// The concrete invocation that stands for the root invocation `inv` where the modules are in these modes, one entry for each
    /// module: itself, or the one that is reached through the modes that run. None exactly where it is absent. In tables that
    /// break a form rule on refinement the first child that runs is taken. One pass over the invocations, for any number of
    /// them by `running_children`.
    pub fn chosen(&self, modes: &[Option<u16>], inv: u16) -> Option<u16>
        ensures value { result ≡ chosen_of self.now modes.now inv }
    {
        let children = running_children(self, modes);
        chosen_by(self, modes, &children, inv)
    }

    /// The number of the function of an output of a concrete task; both are in range. One pass over the tasks in front.
    pub fn output_function(&self, task: u16, output: u16) -> u32
        requires task { task < length self.now.tasks }
        requires output { IfSome (slice_get self.now.tasks task) (λ k. output < function_count k) }
        ensures value { result ≡ output_function_of self.now task output }
        ensures within { result < length self.now.functions }
    {
        let tasks = self.parts().tasks.as_slice();
        functions_before(tasks, task as usize) + output as u32
    }

    /// The number of the function of a switch, which is in range. One pass over the tasks.
    pub fn switch_function(&self, switch: u16) -> u32
        requires { switch < length self.now.switches }
        ensures value { result ≡ switch_function_of self.now switch }
        ensures within { result < length self.now.functions }
    {
        let tasks = self.parts().tasks.as_slice();
        functions_before(tasks, tasks.len()) + switch as u32
    }
}
