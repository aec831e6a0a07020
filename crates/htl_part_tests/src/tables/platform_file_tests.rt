// Platform files for a module M with a task a of worst case 7 and a task b of 3.
use crate::asserts::same;
use crate::made::made;
use htl_model::Tables;
use htl_model::lookup::task_worst;
use htl_platform::{PlatformFault, PlatformStop, apply, read_platform};
use std::alloc::Global;

const TWO_TASKS: &str = "program P {
  module M start m {
    task a input () output () worst 7;
    task b input () output () worst 3;
    mode m period 10 { }
  }
}";

pub fn tables(alloc: Global) -> Option<Tables> {
    made(alloc, TWO_TASKS)
}

// Whether a file is read as a platform of this name and these worst cases.
fn is_read(alloc: Global, t: &Tables, bytes: &[u8], name: &[u8], worst: &[u32]) -> bool {
    match read_platform(alloc, bytes, t) {
        Ok(platform) => { platform.name.as_bytes() == name && platform.worst.as_slice() == worst }
        Err(_) => false,
    }
}

fn has(alloc: Global, bytes: &[u8], name: &[u8], worst: &[u32]) -> Option<bool> {
    let t = tables(alloc)?;
    Some(is_read(alloc, &t, bytes, name, worst))
}

#[test]
fn an_entry_is_the_worst_case_of_its_task(rt: HostRuntime) {
    let file = b"name = \"fast\"\n[worst]\n\"M.a\" = 6\n";
    same(&rt, has(rt.alloc(), file, b"fast", &[6, 3]), Some(true));
}

// The worst cases of the tasks on the platform of a file.
fn applied(alloc: Global, bytes: &[u8]) -> Option<(u32, u32)> {
    let t = tables(alloc)?;
    match read_platform(alloc, bytes, &t) {
        Ok(platform) => {
            let t = apply(t, &platform);
            Some((task_worst(&t, 0), task_worst(&t, 1)))
        }
        Err(_) => None,
    }
}

#[test]
fn the_tables_have_the_worst_cases_of_the_platform(rt: HostRuntime) {
    let file = b"worst = {'M.b' = 1_000_000}\nname = 'slow'";
    same(&rt, applied(rt.alloc(), file), Some((7, 1_000_000)));
}

fn fault_of(alloc: Global, t: &Tables, bytes: &[u8]) -> Option<PlatformFault> {
    match read_platform(alloc, bytes, t) {
        Err(PlatformStop::Refused(fault)) => Some(fault),
        _ => None,
    }
}

// The fault for which a file is refused.
fn fault(alloc: Global, bytes: &[u8]) -> Option<PlatformFault> {
    let t = tables(alloc)?;
    fault_of(alloc, &t, bytes)
}

const FAULTS: [(&[u8], PlatformFault); 6] = [
    (b"[", PlatformFault::Text),
    (b"", PlatformFault::Shape { entry: 0 }),
    (b"name = 3", PlatformFault::Shape { entry: 0 }),
    (
        b"name = 'fast'\n[worst]\nM.a = 6",
        PlatformFault::Shape { entry: 2 },
    ),
    (
        b"name = 'fast'\n[worst]\n'M.c' = 0\n'M.a' = 0",
        PlatformFault::Unknown { entry: 3 },
    ),
    (
        b"name = 'fast'\n[worst]\n'M.b' = 1_000_001\n'M.a' = 6",
        PlatformFault::Range { entry: 3 },
    ),
];

#[test]
fn the_first_fault_is_told(rt: HostRuntime) {
    for (bytes, wanted) in FAULTS {
        same(&rt, fault(rt.alloc(), bytes), Some(wanted));
    }
}
