//! Numbers as texts: one spelling for each number.
ghost use Rattle.std.specs.Prelude.{◌≡◌, ◌≢◌, ◌≤◌, ◌<◌, ◌^◌, ◌+◌, ◌++◌, ◌∷◌, [], ℕ, ℤ, IfSome, OnOk, OnErr, MatchOption, vec_capacity};
ghost use Rattle.std.specs.Fmt.{decimal, signed_decimal};
ghost use Rattle.at_model.specs.Terms.{IsInt32};

use itoa::Buffer;
use std::alloc::AllocError;

/// Appends the decimal of the number, a minus sign before a negative one. Where memory is wanting,
/// the output stays as it was.
pub fn write_int(n: i64, out: &mut Vec<u8>) -> Result<(), AllocError>
    ensures ok { OnOk result (out.new.items ≡ out.old.items ++ signed_decimal n) }
    ensures err { OnErr result (out.new.items ≡ out.old.items) }
    ensures grows { vec_capacity out.old ≤ vec_capacity out.new }
{
    out.extend_from_slice(Buffer::new().format(n).as_bytes())
}

/// The number that the word spells, where it is a single digit.
fn single_digit(word: &str) -> Option<u64>
    ensures { IfSome result (λ n. (n < 10) × (word.now ≡ (48 + n) ∷ [])) }
{
    match word.as_bytes() {
        [digit] if digit.is_ascii_digit() => Some(u64::from(*digit - b'0')),
        _ => None,
    }
}

/// The number of 64 bits whose decimal the word is. The decimal has no sign, and no zero before
/// another digit.
pub fn read_number(word: &str) -> Option<u64>
    ensures { MatchOption result
        ((n : ℕ) → n < 2 ^ 64 → word.now ≢ decimal n)
        (λ n. word.now ≡ decimal n) }
{
    if let Some(digit) = single_digit(word) {
        return Some(digit);
    }
    let Ok(number) = word.parse::<u64>() else {
        return None;
    };
    if Buffer::new().format(number) == word {
        Some(number)
    } else {
        None
    }
}

/// The number of 32 bits whose decimal the word is, with a minus sign before a negative one alone.
pub fn read_int(word: &str) -> Option<i32>
    ensures { MatchOption result
        ((n : ℤ) → IsInt32 n → word.now ≢ signed_decimal n)
        (λ n. IsInt32 n × (word.now ≡ signed_decimal n)) }
{
    let Ok(value) = word.parse::<i32>() else {
        return None;
    };
    if Buffer::new().format(value) == word {
        Some(value)
    } else {
        None
    }
}
