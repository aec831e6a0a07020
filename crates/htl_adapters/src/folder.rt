// Sources from the files of the machine.
ghost use Rattle.std.specs.Prelude.{None, Some, ℕ, List, Option, IfOk, IfErr, IfSome, length, ◌≤◌, ◌<◌, ◌≡◌, []};
ghost use Rattle.htl_edge.specs.Causes.{Rose};
ghost use Rattle.htl_edge.specs.Holdings.{IsTooLong, IsKept};

use htl_edge::{Shelf, ShelfFault};
use std::alloc::Global;
use std::io::Read;
use std::rt::Files;
use std::{fs, io};

/// Files that are opened by name, which may tell what a file holds.
pub trait Open {
    type File: Read + Drop;

    ghost held: { Self → List ℕ → Option (List ℕ) };

    fn open(&self, name: &str) -> io::Result<Self::File>
        ensures { IfOk result (λ file. IfSome (held self.now name.now) (λ bytes. Self.File.remaining file ≡ Some bytes)) };
}

/// The files of a runtime, which tell nothing.
#[derive(Drop)]
pub struct Disk<'a, F> {
    rt: &'a F,
}

impl<'a, F: Files> Disk<'a, F> {
    /// The files of a runtime.
    pub fn new(rt: &'a F) -> Disk<'a, F> {
        Disk { rt }
    }
}

impl<'a, F: Files> Open for Disk<'a, F> {
    type File = F::File;

    ghost held = { λ _ _. None };

    fn open(&self, name: &str) -> io::Result<F::File> {
        fs::open(self.rt, name)
    }
}

/// A shelf over files by name, with one count of faults for all names. A file that can't be opened or read is a
/// fault. As a shelf it tells no content; where the files tell what they hold, a fetch gives that of the name, and only
/// a file that is longer than the limit is too long.
#[derive(Drop)]
pub struct Folder<F> {
    files: F,
    faults: u64,
}

impl<F: Open> Folder<F> {
    /// A shelf over these files, with no fault counted.
    pub fn new(files: F) -> Folder<F>
        ensures files { result.files ≡ files }
        ensures fresh { result.faults ≡ 0 }
    {
        Folder { files, faults: 0 }
    }
}

impl<F: Open> Shelf for Folder<F> {
    ghost holds = { λ _. None };

    ghost faults = { λ s _. s.faults };

    fn fetch(&mut self, alloc: Global, name: &str, limit: u64) -> Result<Vec<u8>, ShelfFault>
        ensures short { IfOk result (λ bytes. length bytes.items ≤ limit) }
        ensures long { IfErr result (IsTooLong None name.now limit) }
        ensures failed { result ≡ Err ShelfFault.Failed → Rose self.old.faults self.new.faults }
        ensures counts { self.old.faults ≤ self.new.faults }
        ensures kept { IsKept self.old.faults self.new.faults result }
        ensures whole { IfOk result (λ bytes. IfSome (F.held self.old.files name.now) (λ held. bytes.items ≡ held)) }
        ensures longer { (seen : ℕ) → result ≡ Err (ShelfFault.TooLong seen) → IfSome (F.held self.old.files name.now) (λ held. limit < length held) }
        ensures files { self.new.files ≡ self.old.files }
    {
        match self.files.open(name) {
            Ok(mut file) => read_up_to(alloc, &mut file, limit, &mut self.faults),
            Err(_) => {
                self.faults = self.faults.saturating_add(1);
                Err(ShelfFault::Failed)
            }
        }
    }
}

// The whole of a file of at most `limit` bytes.
pub fn read_up_to<R: Read>(
    alloc: Global,
    file: &mut R,
    limit: u64,
    faults: &mut u64,
) -> Result<Vec<u8>, ShelfFault>
    ensures short { IfOk result (λ bytes. length bytes.items ≤ limit) }
    ensures whole { IfOk result (λ bytes. IfSome (R.remaining file.old) (λ all. bytes.items ≡ all)) }
    ensures longer { (seen : ℕ) → result ≡ Err (ShelfFault.TooLong seen) → IfSome (R.remaining file.old) (λ all. limit < length all) }
    ensures long { IfErr result (IsTooLong None [] limit) }
    ensures failed { result ≡ Err ShelfFault.Failed → Rose faults.old faults.new }
    ensures counts { faults.old ≤ faults.new }
    ensures kept { IsKept faults.old faults.new result }
{
    let mut bytes = Vec::new(alloc);
    let mut buf = [0u8; 4096];
    'turns: for _ in 0..u64::MAX {
        match file.read(&mut buf) {
            Ok(0) => return Ok(bytes),
            Ok(count) => {
                if bytes.extend_from_slice(&buf[..count]).is_err() {
                    return Err(ShelfFault::Memory);
                }
                let seen = bytes.len() as u64;
                if seen > limit {
                    return Err(ShelfFault::TooLong { seen });
                }
            }
            Err(_) => break 'turns,
        }
    }
    *faults = faults.saturating_add(1);
    Err(ShelfFault::Failed)
}
