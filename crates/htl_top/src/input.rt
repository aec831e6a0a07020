// The input as a source.
ghost use Rattle.std.specs.Prelude.{◌≡◌, ◌<◌, ◌+◌, length, IfOk, IfSome, Err};
ghost use Rattle.htl_base.specs.declared.limits.TheConstants as limit;
ghost use Rattle.htl_edge.specs.Causes.{Rose};
ghost use Rattle.htl_edge.specs.Content.{none_left};
ghost use Rattle.htl_script.specs.Reading.{LosesFront};
ghost use Rattle.htl_top.specs.Sources.{IsInput};

use htl_base::limits::MAX_SOURCE;
use htl_edge::Source;
use std::alloc::Global;

/// Why the input wasn't had whole.
#[derive(Clone, Copy)]
pub enum InputStop {
    /// It has more bytes than a source may have.
    TooLong,
    /// It failed.
    Read,
    /// No memory was left.
    Memory,
}

/// All that the input has left, which is at most 1,048,576 bytes. At most 1,052,672 bytes are read: those of the longest source, and
/// one piece of 4,096.
pub fn read_input<R: Source>(alloc: Global, input: &mut R) -> Result<Vec<u8>, InputStop>
    ensures read { IfOk result (λ bytes. IsInput (R.rest input.old) bytes.items) }
    ensures left { IfOk result (λ bytes. R.rest input.new ≡ none_left (R.rest input.old)) }
    ensures taken { LosesFront (limit.MAX_SOURCE + 4096) (R.rest input.old) (R.rest input.new) }
    ensures long { result ≡ Err InputStop.TooLong → IfSome (R.rest input.old) (λ given. limit.MAX_SOURCE < length given) }
    ensures failed { result ≡ Err InputStop.Read → Rose (R.faults input.old) (R.faults input.new) }
    ensures count { (result ≡ Err InputStop.Read → ⊥) → R.faults input.new ≡ R.faults input.old }
{
    let mut bytes = Vec::new(alloc);
    let mut buf = [0u8; 4096];
    'pieces: loop {
        let Ok(count) = input.read(&mut buf) else {
            return Err(InputStop::Read);
        };
        if count == 0 {
            return Ok(bytes);
        }
        if bytes.extend_from_slice(&buf[..count]).is_err() {
            return Err(InputStop::Memory);
        }
        if bytes.len() as u64 > MAX_SOURCE {
            return Err(InputStop::TooLong);
        }
    }
}
