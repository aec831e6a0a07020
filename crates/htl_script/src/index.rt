// Numbers in the order of the keys of their names.
ghost use Rattle.std.specs.Prelude.{◌≡◌, ◌≤◌, ◌<◌, ◌+◌, ◌++◌, [], ◌∷◌, ℕ, length, take, drop, IsSome, Some};
ghost use Rattle.std.specs.Option.{option_map};
ghost use Rattle.std.specs.Ordering.{nat_cmp};
ghost use Rattle.std.specs.Cmp.Lexicographic.{slice_cmp};
ghost use Rattle.htl_model.specs.Tables.{tables_of};
ghost use Rattle.htl_script.specs.Keys.{Keyed, key_of};
ghost use Rattle.htl_script.specs.Naming.{name_of, count_of, number_named, sensor_name};
ghost use Rattle.htl_script.specs.Orders.{AreRising, AreKeys, IsOrder, IsPlace, IsIndex, keyed, keyed_name};

use crate::naming::{Named, count, name};
use htl_base::limits::MAX_INVOCATIONS;
use htl_model::{Comm, Parts, Tables};
use std::cmp::Ordering;
use std::marker::Model;

/// The sensors and the concrete invocations of tables, to be found by their names.
pub struct Index {
    pub sensors: NameOrder,
    pub invocations: NameOrder,
}

impl Drop for Index {
    fn drop(self) {
        let Self {
            sensors: _,
            invocations: _,
        } = self;
    }
}

impl Index {
    /// The index of no tables.
    pub fn empty() -> Index {
        Index {
            sensors: NameOrder::new(),
            invocations: NameOrder::new(),
        }
    }

    /// The index of tables: each name is put in its place, which is found by halves. It takes no memory.
    pub fn new(t: &Tables) -> Index
        ensures { IsIndex t.now result }
    {
        let mut index = Index::empty();
        index.fill(t);
        index
    }

    /// Makes it the index of tables, in place.
    pub fn fill(&mut self, t: &Tables)
        ensures { IsIndex t.now self.new }
    {
        self.sensors.fill(t, Named::Sensor);
        self.invocations.fill(t, Named::Invocation);
    }
}

/// Numbers in the order of the keys of their names, at most 2,048, held in place; names with one key are in the order of
/// their bytes. A name is found by halves: a key is compared at each, and names where keys are equal. Contracts see the
/// numbers and the keys.
#[derive(Drop)]
pub struct NameOrder {
    keys: [u32; MAX_INVOCATIONS],
    numbers: [u16; MAX_INVOCATIONS],
    // so many are in use
    count: usize,
}

impl Model for NameOrder {
    ghost use Rattle.std.specs.Prelude.{◌≤◌, take};
    ghost use Rattle.htl_script.specs.Keys.{Keyed};

    ghost Value = { Keyed };

    ghost view = { λ o. record { keys = take o.count o.keys; numbers = take o.count o.numbers } };

    ghost invariant = { λ o. o.count ≤ 2048 };
}

impl NameOrder {
    // None.
    fn new() -> NameOrder
        ensures { result ≡ record { keys = []; numbers = [] } }
    {
        NameOrder {
            keys: [0; MAX_INVOCATIONS],
            numbers: [0; MAX_INVOCATIONS],
            count: 0,
        }
    }

    // Makes it those of tables.
    fn fill(&mut self, t: &Tables, kind: Named)
        ensures { IsOrder (name_of t.now kind) (count_of t.now kind) self.new }
    {
        self.clear();
        for number in 0..count(t, kind) {
            self.add(t, kind, number as u16);
        }
    }

    // Takes all away.
    fn clear(&mut self)
        ensures { self.new ≡ record { keys = []; numbers = [] } }
    {
        self.count = 0;
    }

    // Puts the next number in its place, where its name is new.
    fn add(&mut self, t: &Tables, kind: Named, number: u16)
        requires ordered { IsOrder (name_of t.now kind) number self.old }
        requires few { length self.old.numbers ≤ number }
        requires below { number < 2048 }
        ensures ordered { IsOrder (name_of t.now kind) (number + 1) self.new }
        ensures few { length self.new.numbers ≤ number + 1 }
    {
        let Some(text) = name(t.parts(), kind, number) else {
            return;
        };
        let key = key_of(text.as_bytes());
        if let Err(place) = self.place(t.parts(), kind, key, text.as_bytes()) {
            self.insert(place, key, number);
        }
    }

    // Puts a number and its key at a place.
    fn insert(&mut self, place: usize, key: u32, number: u16)
        requires place { place ≤ length self.old.numbers }
        requires room { length self.old.numbers < 2048 }
        ensures numbers { self.new.numbers ≡ take place self.old.numbers ++ number ∷ drop place self.old.numbers }
        ensures keys { self.new.keys ≡ take place self.old.keys ++ key ∷ drop place self.old.keys }
    {
        let count = self.count;
        self.keys[count] = key;
        self.keys[place..count + 1].rotate_right(1);
        self.numbers[count] = number;
        self.numbers[place..count + 1].rotate_right(1);
        self.count = count + 1;
    }

    // The place of a text with its key among the names, found by halves; where it isn't there, where it would stand.
    fn place(&self, parts: &Parts, kind: Named, key: u32, text: &[u8]) -> Result<usize, usize>
        requires rising { AreRising (keyed_name (name_of (tables_of parts.now) kind)) self.now.numbers }
        requires keys { AreKeys (name_of (tables_of parts.now) kind) self.now }
        requires key { key_of text.now ≡ key }
        ensures { IsPlace (keyed_name (name_of (tables_of parts.now) kind)) self.now.numbers (keyed text.now) result }
    {
        let keys = &self.keys[..self.count];
        let numbers = &self.numbers[..self.count];
        let mut low = 0;
        let mut high = numbers.len();
        'halves: while low < high {
            let middle = low + (high - low) / 2;
            match compare_keyed(parts, kind, keys[middle], numbers[middle], key, text) {
                Ordering::Less => low = middle + 1,
                Ordering::Greater => high = middle,
                Ordering::Equal => return Ok(middle),
            }
        }
        Err(low)
    }

    /// The first number with a name.
    pub fn find(&self, t: &Tables, kind: Named, text: &[u8]) -> Option<u16>
        requires { IsOrder (name_of t.now kind) (count_of t.now kind) self.now }
        ensures { result ≡ number_named t.now kind text.now }
    {
        match self.place(t.parts(), kind, key_of(text), text) {
            Ok(place) => Some(self.numbers[place]),
            Err(_) => None,
        }
    }
}

// The key of a name.
fn key_of(text: &[u8]) -> u32
    ensures { result ≡ key_of text.now }
{
    text.iter().fold(0u32, |key, b| {
        key.wrapping_mul(31).wrapping_add(u32::from(*b))
    })
}

// How the name of a number, which has a key, compares with a text and its key; names are compared where the keys are equal.
fn compare_keyed(
    parts: &Parts,
    kind: Named,
    own: u32,
    number: u16,
    key: u32,
    text: &[u8],
) -> Ordering
    requires own { option_map key_of (name_of (tables_of parts.now) kind number) ≡ Some own }
    requires key { key_of text.now ≡ key }
    ensures { option_map (λ a. slice_cmp nat_cmp a (keyed text.now)) (keyed_name (name_of (tables_of parts.now) kind) number) ≡ Some result }
{
    match own.cmp(&key) {
        Ordering::Equal => compare(parts, kind, number, text),
        other => other,
    }
}

// How the name of a number compares with a text.
fn compare(parts: &Parts, kind: Named, number: u16, text: &[u8]) -> Ordering
    requires { IsSome (name_of (tables_of parts.now) kind number) }
    ensures { option_map (λ own. slice_cmp nat_cmp own text.now) (name_of (tables_of parts.now) kind number) ≡ Some result }
{
    match kind {
        Named::Sensor => match parts.comms.as_slice().get(number as usize) {
            Some(comm) => compare_sensor(comm, text),
            None => Ordering::Equal,
        },
        Named::Invocation => match name(parts, kind, number) {
            Some(own) => own.as_bytes().cmp(text),
            None => Ordering::Equal,
        },
    }
}

// How the name of a sensor compares with a text; it is not copied.
fn compare_sensor(comm: &Comm, text: &[u8]) -> Ordering
    requires { IsSome (sensor_name comm.now) }
    ensures { option_map (λ own. slice_cmp nat_cmp own text.now) (sensor_name comm.now) ≡ Some result }
{
    comm.name.as_bytes().cmp(text)
}
