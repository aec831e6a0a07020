// The numbers in the lines of a script.
ghost use Rattle.std.specs.Prelude.{◌≡◌, ◌-◌, ◌^◌, ◌&&◌, ◌||◌, ◌==◌, ℕ, Bool, Some, None, true, not, min, length, nat_lt, slice_index, if◌then◌else◌};
ghost use Rattle.std.specs.Option.{option_map};
ghost use Rattle.std.specs.List.{fold, list_all};
ghost use Rattle.std.specs.Char.{is_ascii_digit};
ghost use Rattle.htl_script.specs.Reading.{with_digit_capped};
ghost use Rattle.htl_script.specs.Numbers.{number_of, signed_of, with_digit as with_digit_of};

// Ten times a smaller number, and a digit more, are far from the end of 64 bits.
const SMALL: u64 = 1_000_000_000;

// The number that a field spells, or 18,446,744,073,709,551,615 where it is larger.
pub fn number(field: &[u8]) -> Option<u64>
    ensures { result ≡ option_map (λ (n : ℕ). min n (2 ^ 64 - 1)) (number_of field.now) }
{
    if has_numeral_front(field) {
        value(field)
    } else {
        None
    }
}

// Whether a `-` stands before a number, and the number as above.
pub fn signed(field: &[u8]) -> Option<(bool, u64)>
    ensures { result ≡ option_map (λ (x : Bool × ℕ). (x.0, min x.1 (2 ^ 64 - 1))) (signed_of field.now) }
{
    match field.split_first() {
        None => None,
        Some((first, rest)) => {
            if *first != b'-' {
                return number(field).map(|n| (false, n));
            }
            match number(rest) {
                Some(0) => None,
                Some(n) => Some((true, n)),
                None => None,
            }
        }
    }
}

// A byte at least, and no zero before others.
fn has_numeral_front(field: &[u8]) -> bool
    ensures { result ≡ (nat_lt 0 (length field.now) && (not (slice_index field.now 0 == 48) || (length field.now == 1))) }
{
    if field.is_empty() {
        return false;
    }
    field[0] != b'0' || field.len() == 1
}

// The value of digits, or 18,446,744,073,709,551,615 where it is larger; None where another byte is among them.
fn value(field: &[u8]) -> Option<u64>
    ensures { result ≡ (if list_all is_ascii_digit field.now then Some (min (fold with_digit_of 0 field.now) (2 ^ 64 - 1)) else None) }
{
    let mut n = 0;
    for b in field {
        if !b.is_ascii_digit() {
            return None;
        }
        n = with_digit(n, *b);
    }
    Some(n)
}

// A number with one digit more. Most are far from the end of 64 bits.
fn with_digit(n: u64, digit: u8) -> u64
    requires { is_ascii_digit digit ≡ true }
    ensures { result ≡ with_digit_capped n digit }
{
    let last = u64::from(digit - b'0');
    if n < SMALL {
        n * 10 + last
    } else {
        n.saturating_mul(10).saturating_add(last)
    }
}
