// A broken form rule.

/// The first form rule that tables break, where, and by which numbers.
#[derive(Clone, Copy, PartialEq, Eq, Debug)]
pub struct FormFault {
    /// The number of the rule, 1 to 16.
    pub rule: u8,
    /// The module of the site.
    pub module: u16,
    /// The mode of the site.
    pub mode: u16,
    /// The invocation of the site; None where the mode itself is the site.
    pub inv: Option<u16>,
    /// The number that is there: an offset or length in ticks, a count, a place or the number of an item.
    pub have: u64,
    /// The number that the rule asks for, or compares with.
    pub need: u64,
}
