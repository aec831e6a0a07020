// The words of the program.
ghost use Rattle.std.specs.Prelude.{◌≡◌, drop, map, string_bytes, IfOk};
ghost use Rattle.std.specs.Vec.Iter.{into_iter_items};
ghost use Rattle.htl_adapters.specs.Words.{words_of};

use htl_base::Memory;
use std::alloc::Global;
use std::env::Args;
use std::io;

/// The arguments, of which the first is the program's name; none where one isn't text.
pub fn held(alloc: Global, args: io::Result<Args>) -> Result<Vec<String>, Memory>
    ensures { IfOk result (λ held. map string_bytes (drop 1 held.items) ≡ words_of args) }
{
    match args {
        Ok(args) => all(alloc, args),
        Err(error) if error.kind() == io::ErrorKind::OutOfMemory => Err(Memory),
        Err(_) => Ok(Vec::new(alloc)),
    }
}

// All of the arguments.
fn all(alloc: Global, args: Args) -> Result<Vec<String>, Memory>
    ensures { IfOk result (λ held. held.items ≡ into_iter_items args) }
{
    let mut held = Vec::new(alloc);
    for arg in args {
        if held.push(arg).is_err() {
            return Err(Memory);
        }
    }
    Ok(held)
}

/// What follows the program's name.
pub fn after_name(args: &[String]) -> &[String]
    ensures { result.now ≡ drop 1 args.now }
{
    match args {
        [_, words @ ..] => words,
        [] => &[],
    }
}

/// The words, lent.
pub fn lent(alloc: Global, words: &[String]) -> Result<Vec<&str>, Memory>
    ensures { IfOk result (λ lent. map (λ w. w.now) lent.items ≡ map string_bytes words.now) }
{
    let mut lent = Vec::new(alloc);
    for word in words {
        if lent.push(word.as_str()).is_err() {
            return Err(Memory);
        }
    }
    Ok(lent)
}
