// The lines of a run, and the listing, of a source with one invocation.
ghost use Rattle.std.specs.Prelude.{◌≡◌, ◌<◌, length, true, IfSome};

use crate::asserts::same;
use crate::made::made;
use htl_base::{Name, Seq, Time, Value};
use htl_console::{
    Shown, line_d, line_e, line_end, line_j, line_m, line_plan, line_s, line_v, show,
};
use htl_ecode::{ECode, EInstr};
use htl_edge::{Failed, Page};
use htl_model::Tables;
use htl_samples::samples::DOUBLING;
use htl_walk::{SInstr, Schedule};
use std::alloc::{AllocError, Global};

const INSTRS: [EInstr; 11] = [
    EInstr::Enter { mode: 0 },
    EInstr::Future {
        delay: 10,
        phase: 1,
        target: 5,
    },
    EInstr::Future {
        delay: 0,
        phase: 3,
        target: 7,
    },
    EInstr::Future {
        delay: 20,
        phase: 2,
        target: 10,
    },
    EInstr::Return,
    EInstr::CallWrite { inv: 0, output: 0 },
    EInstr::Return,
    EInstr::CallRead { inv: 0, input: 0 },
    EInstr::Release { inv: 0 },
    EInstr::Return,
    EInstr::Jump { target: 1 },
];

const DISPATCH: SInstr = SInstr::Dispatch {
    position: 0,
    until: 4,
};

const STEPS: [SInstr; 2] = [DISPATCH, SInstr::End];

fn code(alloc: Global) -> Result<ECode, AllocError> {
    Ok(ECode {
        enter: Seq::new(vec![in alloc; 0]?),
        begin: Seq::new(vec![in alloc; 1]?),
        decide: Seq::new(vec![in alloc; 10]?),
        instrs: Seq::new(INSTRS.to_vec(alloc)?),
    })
}

fn schedule(alloc: Global) -> Result<Schedule, AllocError> {
    Ok(Schedule {
        instrs: Seq::new(STEPS.to_vec(alloc)?),
    })
}

// A line of a run or of a plan.
enum Line {
    Instr(Time, u32, EInstr),
    Value(Time, u16, Value),
    Mode(Time, u16, Option<u16>),
    Slice(Time, Time, u16),
    Done(Time, u16),
    Step(Time, u32, u32, SInstr),
    End(Time, u64, u64, u64),
    Plan(Time, u64, u64),
}

// Writes the value of a communicator that is there.
fn tell_value(page: &mut Page, t: &Tables, at: Time, comm: u16, x: Value) -> Result<(), Failed> {
    if comm as usize >= t.parts().comms.as_slice().len() {
        return Err(Failed);
    }
    line_v(page, t, at, comm, x)
}

fn has_mode(t: &Tables, mode: Option<u16>) -> bool
    ensures { result ≡ true → IfSome mode (λ m. m < length t.now.modes) }
{
    match mode {
        Some(m) => (m as usize) < t.parts().modes.as_slice().len(),
        None => true,
    }
}

// Writes the mode of a module, both of which are there.
fn tell_mode(
    page: &mut Page,
    t: &Tables,
    at: Time,
    module: u16,
    mode: Option<u16>,
) -> Result<(), Failed> {
    if module as usize >= t.parts().modules.as_slice().len() || !has_mode(t, mode) {
        return Err(Failed);
    }
    line_m(page, t, at, module, mode)
}

fn tell(page: &mut Page, t: &Tables, line: &Line) -> Result<(), Failed> {
    match *line {
        Line::Instr(at, address, instr) => line_e(page, t, at, address, &instr),
        Line::Value(at, comm, x) => tell_value(page, t, at, comm, x),
        Line::Mode(at, module, mode) => tell_mode(page, t, at, module, mode),
        Line::Slice(from, to, inv) => line_j(page, t, from, to, inv),
        Line::Done(at, inv) => line_d(page, t, at, inv),
        Line::Step(at, selection, place, instr) => line_s(page, at, selection, place, &instr),
        Line::End(at, jobs, e, s) => line_end(page, at, jobs, e, s),
        Line::Plan(period, jobs, s) => line_plan(page, period, jobs, s),
    }
}

fn tell_all(page: &mut Page, t: &Tables, lines: &[Line]) -> Result<(), Failed> {
    for line in lines {
        tell(page, t, line)?;
    }
    Ok(())
}

fn told_of(alloc: Global, t: &Tables, lines: &[Line]) -> Option<Page> {
    let mut page = Page::new(alloc, 1000, &[]).ok()?;
    match tell_all(&mut page, t, lines) {
        Ok(()) => Some(page),
        Err(_) => None,
    }
}

// A page of these lines; None where one of them isn't written.
fn told(alloc: Global, lines: &[Line]) -> Option<Page> {
    let t = made(alloc, DOUBLING)?;
    told_of(alloc, &t, lines)
}

const INSTRUCTIONS: [Line; 3] = [
    Line::Instr(0, 0, EInstr::Enter { mode: 0 }),
    Line::Instr(0, 7, EInstr::CallRead { inv: 0, input: 0 }),
    Line::Instr(
        20,
        10,
        EInstr::JumpIf {
            switch: 9,
            target: 3,
        },
    ),
];

#[test]
fn instructions_are_told(rt: HostRuntime) {
    let page = told(rt.alloc(), &INSTRUCTIONS).expect(&rt, "lines");
    let text = b"e 0 0 enter M.m
e 0 7 call read M.m.dbl 0
e 20 10 jumpif 9 3
";
    same(&rt, page.bytes(), text.as_slice());
}

const JOBS_AND_VALUES: [Line; 8] = [
    Line::Value(0, 0, -3),
    Line::Mode(0, 0, Some(0)),
    Line::Mode(5, 0, None),
    Line::Slice(0, 4, 0),
    Line::Done(4, 0),
    Line::Step(4, 0, 1, DISPATCH),
    Line::End(10, 1, 10, 2),
    Line::Plan(20, 1, 2),
];

#[test]
fn jobs_and_values_are_told(rt: HostRuntime) {
    let page = told(rt.alloc(), &JOBS_AND_VALUES).expect(&rt, "lines");
    let text = b"v 0 s -3
m 0 M m
m 5 M -
j 0 4 M.m.dbl
d 4 M.m.dbl
s 4 0:1 dispatch 0 until 4
end 10 jobs 1 e 10 s 2
plan 20 jobs 1 s 2
";
    same(&rt, page.bytes(), text.as_slice());
}

// What is answered of a listing with these schedules.
fn list(
    alloc: Global,
    page: &mut Page,
    platform: Option<&Name>,
    t: &Tables,
    schedules: &[Schedule],
) -> Option<Result<(), Failed>> {
    let code = code(alloc).ok()?;
    Some(show(page, platform, t, &code, schedules))
}

fn listed(
    alloc: Global,
    page: &mut Page,
    platform: Option<&Name>,
    schedules: &[Schedule],
) -> Option<Result<(), Failed>> {
    let t = made(alloc, DOUBLING)?;
    list(alloc, page, platform, &t, schedules)
}

#[test]
fn an_object_is_listed(rt: HostRuntime) {
    let schedules = [schedule(rt.alloc()).expect(&rt, "memory")];
    let mut page = Page::new(rt.alloc(), 1000, &[]).expect(&rt, "memory");
    let answer = listed(rt.alloc(), &mut page, None, &schedules);
    let text = b"sensor s int period 10 init 0
comm u int period 10 init 7
module M start m
mode M.m period 20
inv M.m.dbl worst 4 window 0 10
fn 0 instrs 3
E 0 enter M.m
E 1 future 10 write 5
E 2 future 0 read 7
E 3 future 20 switch 10
E 4 return
E 5 call write M.m.dbl 0
E 6 return
E 7 call read M.m.dbl 0
E 8 release M.m.dbl
E 9 return
E 10 jump 1
S 0:0 dispatch 0 until 4
S 0:1 end
";
    same(&rt, answer, Some(Ok(())));
    same(&rt, page.bytes(), text.as_slice());
}

#[test]
fn a_platform_is_named_first(rt: HostRuntime) {
    let name = Name::new(b"fast").expect(&rt, "name");
    let mut page = Page::new(rt.alloc(), 30, &[]).expect(&rt, "memory");
    let answer = listed(rt.alloc(), &mut page, Some(&name), &[]);
    same(&rt, answer, Some(Err(Failed)));
    same(
        &rt,
        page.bytes(),
        b"platform fast\nsensor s int per".as_slice(),
    );
}

#[test]
fn a_page_that_is_too_short(rt: HostRuntime) {
    let mut page = Page::new(rt.alloc(), 40, &[]).expect(&rt, "memory");
    let answer = listed(rt.alloc(), &mut page, None, &[]);
    same(&rt, answer, Some(Err(Failed)));
    same(
        &rt,
        page.bytes(),
        b"sensor s int period 10 init 0\ncomm u int".as_slice(),
    );
}

// Whether values, jobs and code are shown.
fn kinds(shown: Shown) -> (bool, bool, bool) {
    (shown.values(), shown.jobs(), shown.code())
}

const KINDS: [(Shown, (bool, bool, bool)); 4] = [
    (Shown::Nothing, (false, false, false)),
    (Shown::Values, (true, false, false)),
    (Shown::Jobs, (true, true, false)),
    (Shown::Code, (true, true, true)),
];

#[test]
fn what_is_shown(rt: HostRuntime) {
    for (shown, wanted) in KINDS {
        same(&rt, kinds(shown), wanted);
    }
}
