//! Literals and decimal numbers, read off the front of bytes.
ghost use Rattle.std.specs.Prelude.{◌≡◌, ◌++◌, ◌+◌, ◌<◌, ◌≤◌, ◌^◌, ℕ, List, length, take, drop};
ghost use Rattle.std.specs.Prelude.{SomeIff, IfSome, IsSomeAnd, Option};
ghost use Rattle.std.specs.Fmt.{decimal};
ghost use Rattle.shape_dict.specs.Text.{optional_number};
ghost use Rattle.shape_dict.specs.Inner.Parsing.{IsEnded, AreDigits, read_on};

/// Returns the bytes after `literal`, or None if they do not begin with it.
pub(crate) fn after<'a>(bytes: &'a [u8], literal: &[u8]) -> Option<&'a [u8]>
    ensures found { IfSome result (λ rest. bytes.now ≡ literal.now ++ rest.now) }
    ensures only { (left : List ℕ) → bytes.now ≡ literal.now ++ left
        → IsSomeAnd result (λ rest. rest.now ≡ left) }
{
    bytes.strip_prefix(literal)
}

/// How many decimal digits come first.
fn count_digits(bytes: &[u8]) -> usize
    ensures fits { result ≤ length bytes.now }
    ensures digits { AreDigits (take result bytes.now) }
    ensures ended { IsEnded (drop result bytes.now) }
{
    let mut count = 0;
    while count < bytes.len() && bytes[count].is_ascii_digit() {
        count += 1;
    }
    count
}

/// The number that decimal digits spell, or None if it is over 2^64 - 1.
fn value_of(digits: &[u8]) -> Option<u64>
    requires { AreDigits digits.now }
    ensures { SomeIff result (read_on 0 digits.now < 2 ^ 64) (read_on 0 digits.now) }
{
    let mut value: u64 = 0;
    for byte in digits {
        let digit = u64::from(*byte - b'0');
        if value >= u64::MAX / 10 && value > (u64::MAX - digit) / 10 {
            return None;
        }
        value = 10 * value + digit;
    }
    Some(value)
}

/// Reads the decimal number at the front, without leading zeros and at most 2^64 - 1. Returns the
/// number and the bytes after its last digit, or None if no such number is there.
pub(crate) fn number(bytes: &[u8]) -> Option<(u64, &[u8])>
    ensures found { IfSome result (λ p. (bytes.now ≡ decimal p.0 ++ p.1.now) × (p.0 < 2 ^ 64)
        × IsEnded p.1.now) }
    ensures only { (n : ℕ) → (left : List ℕ) → n < 2 ^ 64 → IsEnded left
        → bytes.now ≡ decimal n ++ left → IsSomeAnd result (λ p. (p.0 ≡ n) × (p.1.now ≡ left)) }
{
    let count = count_digits(bytes);
    if count == 0 {
        return None;
    }
    if count > 1 && bytes[0] == b'0' {
        return None;
    }
    let value = value_of(&bytes[..count])?;
    Some((value, &bytes[count..]))
}

/// Reads `literal` and a decimal number after it. Returns the number with the bytes after it, or
/// None if one of them is missing, or the number has leading zeros or is over 2^64 - 1.
pub(crate) fn number_after<'a>(bytes: &'a [u8], literal: &[u8]) -> Option<(u64, &'a [u8])>
    ensures found { IfSome result (λ p. (bytes.now ≡ literal.now ++ (decimal p.0 ++ p.1.now))
        × (p.0 < 2 ^ 64) × IsEnded p.1.now) }
    ensures only { (n : ℕ) → (left : List ℕ) → n < 2 ^ 64 → IsEnded left
        → bytes.now ≡ literal.now ++ (decimal n ++ left)
        → IsSomeAnd result (λ p. (p.0 ≡ n) × (p.1.now ≡ left)) }
{
    let rest = after(bytes, literal)?;
    number(rest)
}

/// Reads `literal`, and after it a decimal number, or `-` for None. Returns the number with the
/// bytes after it. The result is None if the bytes begin otherwise.
pub(crate) fn optional_after<'a>(bytes: &'a [u8], literal: &[u8]) -> Option<(Option<u64>, &'a [u8])>
    ensures found { IfSome result (λ p. (bytes.now
        ≡ literal.now ++ (optional_number p.0 ++ p.1.now)) × IfSome p.0 (λ n. n < 2 ^ 64)) }
    ensures only { (number : Option ℕ) → (left : List ℕ) → IfSome number (λ n. n < 2 ^ 64)
        → IsEnded left → bytes.now ≡ literal.now ++ (optional_number number ++ left)
        → IsSomeAnd result (λ p. (p.0 ≡ number) × (p.1.now ≡ left)) }
{
    let rest = after(bytes, literal)?;
    if let Some(left) = after(rest, b"-") {
        return Some((None, left));
    }
    let (number, left) = number(rest)?;
    Some((Some(number), left))
}
