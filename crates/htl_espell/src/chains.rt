// Long chains of plain jumps of which it is known where they lead, so that none is followed again and again.
ghost use Rattle.std.specs.Prelude.{◌≡◌, ◌≤◌, ◌<◌, ◌-◌, List, length, get_or, slice_get, IfSome, Some};
ghost use Rattle.htl_ecode.specs.declared.instr.EInstr.{EInstr as Instr};
ghost use Rattle.htl_ecode.specs.declared.instr.EInstr.TheVariants.{CallWrite};
ghost use Rattle.htl_espell.specs.JumpChains.{after_jumps, AreJumpChains};

use htl_ecode::EInstr;
use std::marker::Model;

/// From `place`, so many plain jumps lead to `anchor`.
#[derive(Clone, Copy)]
pub struct JumpChain {
    pub anchor: u32,
    pub place: u32,
    pub jumps: usize,
    /// Whether the chain ends at `anchor`, where an instruction stands that is no plain jump.
    pub resolved: bool,
}

impl JumpChain {
    // Chains to anchors come first, in the order of anchors and places, then those that end, in the order of places.
    fn is_below(&self, other: &JumpChain) -> bool {
        if self.resolved != other.resolved {
            return other.resolved;
        }
        if !self.resolved && self.anchor != other.anchor {
            return self.anchor < other.anchor;
        }
        self.place < other.place
    }
}

const NO_CHAIN: JumpChain = JumpChain {
    anchor: 0,
    place: 0,
    jumps: 0,
    resolved: false,
};

// How many are held.
const ROOM: usize = 2_048;

// How many jumps apart the places of a chain are that are held. An object of 16 MB has no more than 3,355,443 jumps of five bytes, so
// that the places on all ways to one anchor, and those on all ways to their ends, find room.
const APART: usize = 4_096;

// A place that has no mark by its lowest bits is not held.
const MARKS: usize = 16_384;

/// The instructions of E code, and what is known of the chains of plain jumps among them; contracts see the instructions.
#[derive(Drop)]
pub struct Instrs<'a> {
    instrs: &'a [EInstr],
    cells: [JumpChain; ROOM],
    len: usize,
    marks: [bool; MARKS],
}

impl<'a> Model for Instrs<'a> {
    ghost use Rattle.std.specs.Prelude.{List};
    ghost use Rattle.htl_ecode.specs.declared.instr.EInstr.{EInstr};
    ghost use Rattle.htl_espell.specs.JumpChains.{AreJumpChains};

    ghost Value = { List EInstr };

    ghost view = { λ c. c.instrs.now };

    ghost invariant = { λ c. AreJumpChains c.instrs.now c.cells };
}

// Nothing is known.
fn no_cells() -> [JumpChain; ROOM]
    ensures { (code : List Instr) → AreJumpChains code result }
{
    [NO_CHAIN; ROOM]
}

// The place of the first of the first `len` that isn't below another.
fn position(cells: &[JumpChain], len: usize, other: &JumpChain) -> usize
    requires { len ≤ length cells.now }
    ensures { result ≤ len }
{
    let mut low = 0;
    let mut high = len;
    while low < high {
        let middle = low + (high - low) / 2;
        if cells[middle].is_below(other) {
            low = middle + 1;
        } else {
            high = middle;
        }
    }
    low
}

// Moves those from place `at` up to `len` one place up.
fn make_room(code: &[EInstr], cells: &mut [JumpChain], at: usize, len: usize)
    requires room { len < length cells.old }
    requires known { AreJumpChains code.now cells.old }
    ensures known { AreJumpChains code.now cells.new }
    ensures len { length cells.new ≡ length cells.old }
{
    let mut k = len;
    while at < k {
        cells[k] = cells[k - 1];
        k -= 1;
    }
}

impl<'a> Instrs<'a> {
    /// Of these nothing is known.
    pub fn new(instrs: &'a [EInstr]) -> Instrs<'a>
        ensures { result ≡ instrs.now }
    {
        let cells = no_cells();
        let marks = [false; MARKS];
        Instrs {
            instrs,
            cells,
            len: 0,
            marks,
        }
    }

    /// How many there are.
    pub fn len(&self) -> usize
        ensures { result ≡ length self.now }
    {
        self.instrs.len()
    }

    /// The instruction at an address, if any.
    pub fn get(&self, at: u32) -> Option<EInstr>
        ensures { result ≡ slice_get self.now at }
    {
        self.instrs.get(at as usize).copied()
    }

    /// The instruction at an address that has one.
    pub fn at(&self, place: u32) -> EInstr
        requires { place < length self.now }
        ensures { result ≡ get_or self.now place (CallWrite 0 0) }
    {
        self.instrs[place as usize]
    }

    // What is held of a place and an anchor, or of a place and the end of its chain, where at most so many jumps lead there.
    fn held(&self, wanted: &JumpChain) -> Option<JumpChain>
        ensures after_jumps { IfSome result (λ s. after_jumps self.now s.place s.jumps ≡ Some s.anchor) }
        ensures place { IfSome result (λ s. s.place ≡ wanted.now.place) }
        ensures few { IfSome result (λ s. s.jumps ≤ wanted.now.jumps) }
    {
        if !self.marks[wanted.place as usize % MARKS] || self.len > ROOM {
            return None;
        }
        let k = position(&self.cells, self.len, wanted);
        if k >= ROOM {
            return None;
        }
        let found = self.cells[k];
        if found.place == wanted.place
            && found.resolved == wanted.resolved
            && found.jumps <= wanted.jumps
        {
            Some(found)
        } else {
            None
        }
    }

    /// How many plain jumps lead from a place to an anchor, where that is known and they are at most so many.
    pub fn rest_to(&self, anchor: u32, place: u32, most: usize) -> Option<usize>
        ensures after_jumps { IfSome result (λ n. after_jumps self.now place n ≡ Some anchor) }
        ensures few { IfSome result (λ n. n ≤ most) }
    {
        let wanted = JumpChain {
            anchor,
            place,
            jumps: most,
            resolved: false,
        };
        match self.held(&wanted) {
            Some(found) => if found.anchor == anchor {
                Some(found.jumps)
            } else {
                None
            },
            None => None,
        }
    }

    /// Where the chain from a place ends, and how many jumps are left of `most`, where that is known; else the place itself.
    pub fn skip(&self, place: u32, most: usize) -> (u32, usize)
        ensures few { result.1 ≤ most }
        ensures after_jumps { after_jumps self.now place (most - result.1) ≡ Some result.0 }
    {
        let wanted = JumpChain {
            anchor: 0,
            place,
            jumps: most,
            resolved: true,
        };
        match self.held(&wanted) {
            Some(found) => (found.anchor, most - found.jumps),
            None => (place, most),
        }
    }

    // Adds one; where there is no room, all others are let go.
    fn insert(&mut self, chain: JumpChain)
        requires { after_jumps self.old chain.place chain.jumps ≡ Some chain.anchor }
        ensures { self.new ≡ self.old }
    {
        let len = if self.len < ROOM { self.len } else { 0 };
        let at = position(&self.cells, len, &chain);
        make_room(self.instrs, &mut self.cells, at, len);
        self.cells[at] = chain;
        self.len = len + 1;
        self.marks[chain.place as usize % MARKS] = true;
    }

    /// Notes places on the first `walked` jumps of a chain, where they are many.
    pub fn note(&mut self, chain: JumpChain, walked: usize)
        requires { after_jumps self.old chain.place chain.jumps ≡ Some chain.anchor }
        ensures { self.new ≡ self.old }
    {
        if walked < 2 * APART {
            return;
        }
        let mut rest = chain;
        for k in 0..walked {
            if k % APART == 0 {
                self.insert(rest);
            }
            match self.get(rest.place) {
                Some(EInstr::Jump { target }) => if rest.jumps > 0 {
                    rest = JumpChain {
                        place: target,
                        jumps: rest.jumps - 1,
                        ..rest
                    };
                } else {
                    return;
                },
                _ => return,
            }
        }
    }
}
