//! Numbers in decimal digits.

ghost use Rattle.std.specs.Prelude.{IfSome, ◌≡◌, ◌<◌, ◌≤◌, ◌+◌, ◌^◌, IsTrue, length, option_map};
ghost use Rattle.std.specs.Char.{is_ascii_digit};
ghost use Rattle.std.specs.List.{list_all};
ghost use Rattle.std.specs.Str.Parse.{digits_value};
ghost use Rattle.dump_text.specs.Pieces.{digit_count, numeral_at};

/// How many decimal digits stand at the front.
fn digit_count(bytes: &[u8]) -> usize
    ensures { result ≡ digit_count bytes.now }
{
    for (i, b) in bytes.iter().enumerate() {
        if !b.is_ascii_digit() {
            return i;
        }
    }
    bytes.len()
}

/// The number that at most 19 digits write.
fn value(digits: &[u8]) -> u64
    requires digits { IsTrue (list_all is_ascii_digit digits.now) }
    requires few { length digits.now ≤ 19 }
    ensures { result ≡ digits_value 10 digits.now }
{
    let mut number: u64 = 0;
    for b in digits {
        number = number * 10 + u64::from(*b - b'0');
    }
    number
}

/// The number at the front, in at most so many digits, of which the first is 0 in 0 alone.
#[tactic(auto, unfolding(crate::specs::Pieces::numeral_at))]
pub fn numeral(most: usize, bytes: &[u8]) -> Option<(u64, &[u8])>
    requires { most ≤ 19 }
    ensures read { option_map (λ x. (x.0, x.1.now)) result ≡ numeral_at most bytes.now }
    ensures below { IfSome result (λ x. x.0 < 10 ^ most) }
{
    let count = digit_count(bytes);
    if count == 0 || count > most || bytes[0] == b'0' && count > 1 {
        return None;
    }
    let (digits, rest) = bytes.split_at(count);
    Some((value(digits), rest))
}
