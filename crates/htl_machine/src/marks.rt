// Sets of numbers below 1,024, in place.
ghost use Rattle.std.specs.Prelude.{◌≡◌, ◌≢◌, ◌≤◌, ◌<◌, ◌/◌, ◌%◌, ◌||◌, ℕ, true, false, cond, eqb};
ghost use Rattle.htl_model.specs.Bits.{has_bit as has_bit_of};
ghost use Rattle.htl_machine.specs.Marks.{is_marked, row_of};

/// Which of 1,024 numbers are marked, a bit for each.
#[derive(Clone, Copy)]
pub struct Marks {
    // A bit for each row that was marked; what stands in the others doesn't count.
    used: u64,
    rows: [u64; 16],
}

impl Marks {
    /// No number is marked.
    pub fn new() -> Marks
        ensures { (k : ℕ) → is_marked result k ≡ false }
    {
        Marks {
            used: 0,
            rows: [0; 16],
        }
    }

    /// No number is marked any more.
    pub fn clear(&mut self)
        ensures { (k : ℕ) → is_marked self.new k ≡ false }
    {
        self.used = 0;
    }

    /// Marks a number, or takes its mark away.
    pub fn put(&mut self, number: usize, marked: bool)
        requires { number < 1024 }
        ensures { (k : ℕ) → is_marked self.new k ≡ cond (eqb k number) marked (is_marked self.old k) }
    {
        let row = number / 64;
        self.rows[row] = put_bit(self.row(row), (number % 64) as u32, marked);
        self.used = with_bit(self.used, row as u32);
    }

    /// Whether no number is marked, where that is seen without looking at the rows.
    pub fn is_clear(&self) -> bool
        ensures { result ≡ true → (k : ℕ) → is_marked self.now k ≡ false }
    {
        self.used == 0
    }

    /// The first marked number, from one on; 1,024 where there is none.
    pub fn next(&self, from: usize) -> usize
        requires { from ≤ 1024 }
        ensures low { from ≤ result }
        ensures high { result ≤ 1024 }
        ensures skipped { (k : ℕ) → from ≤ k → k < result → is_marked self.now k ≡ false }
        ensures found { result < 1024 → is_marked self.now result ≡ true }
    {
        let start = self.next_row(from / 64);
        let mut row = start;
        let mut bit = first_bit(from, start);
        while row < 16 {
            let next = next_bit(self.row(row), bit);
            if next < 64 {
                return row * 64 + next as usize;
            }
            row = self.next_row(row + 1);
            bit = 0;
        }
        1024
    }

    // The marks of a row.
    fn row(&self, row: usize) -> u64
        requires { row < 16 }
        ensures { result ≡ row_of self.now row }
    {
        if has_bit(self.used, row as u32) {
            self.rows[row]
        } else {
            0
        }
    }

    // The first row with marks, from one on; 64 where there is none.
    fn next_row(&self, from: usize) -> usize
        requires { from ≤ 16 }
        ensures low { from ≤ result }
        ensures high { result ≤ 64 }
        ensures skipped { (r : ℕ) → from ≤ r → r < result → row_of self.now r ≡ 0 }
    {
        next_bit(self.used, from as u32) as usize
    }
}

// The first bit that is looked at in a row, from a number on.
fn first_bit(from: usize, row: usize) -> u32
    ensures low { result < 64 }
    ensures here { row ≡ from / 64 → result ≡ from % 64 }
    ensures later { row ≢ from / 64 → result ≡ 0 }
{
    if row == from / 64 {
        (from % 64) as u32
    } else {
        0
    }
}

// Whether a row has a bit.
fn has_bit(row: u64, bit: u32) -> bool
    requires { bit < 64 }
    ensures { result ≡ has_bit_of row bit }
{
    (row >> bit) & 1 == 1
}

// A row with one bit more.
fn with_bit(row: u64, bit: u32) -> u64
    requires { bit < 64 }
    ensures { (k : ℕ) → has_bit_of result k ≡ (has_bit_of row k || eqb k bit) }
{
    row | (1 << bit)
}

// A row with a bit as given.
fn put_bit(row: u64, bit: u32, set: bool) -> u64
    requires { bit < 64 }
    ensures { (k : ℕ) → has_bit_of result k ≡ cond (eqb k bit) set (has_bit_of row k) }
{
    if set {
        with_bit(row, bit)
    } else {
        row & !(1 << bit)
    }
}

// The first bit of a row, from one on; 64 where there is none.
fn next_bit(row: u64, from: u32) -> u32
    requires { from < 64 }
    ensures low { from ≤ result }
    ensures high { result ≤ 64 }
    ensures skipped { (k : ℕ) → from ≤ k → k < result → has_bit_of row k ≡ false }
    ensures found { result < 64 → has_bit_of row result ≡ true }
{
    let rest = row >> from;
    if rest == 0 {
        return 64;
    }
    (from + rest.trailing_zeros()).min(64)
}
