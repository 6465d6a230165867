//! Words in 13 hexadecimal digits, read off the front of bytes.
ghost use Rattle.std.specs.Prelude.{◌≡◌, ◌++◌, ◌<◌, ◌≤◌, ◌^◌, ℕ, List, IfSome, IsSomeAnd};
ghost use Rattle.shape_dict.specs.Text.{hexadecimal_digit, word_text};

/// The value of each byte as a hexadecimal digit in lower case, and 16 if it is none. A table is
/// used in place of branches, since no processor can predict which digit comes.
static VALUES: [u8; 256] = [
    16, 16, 16, 16, 16, 16, 16, 16, 16, 16, 16, 16, 16, 16, 16, 16, 16, 16, 16, 16, 16, 16, 16, 16,
    16, 16, 16, 16, 16, 16, 16, 16, 16, 16, 16, 16, 16, 16, 16, 16, 16, 16, 16, 16, 16, 16, 16, 16,
    0, 1, 2, 3, 4, 5, 6, 7, 8, 9, 16, 16, 16, 16, 16, 16, 16, 16, 16, 16, 16, 16, 16, 16, 16, 16,
    16, 16, 16, 16, 16, 16, 16, 16, 16, 16, 16, 16, 16, 16, 16, 16, 16, 16, 16, 16, 16, 16, 16, 10,
    11, 12, 13, 14, 15, 16, 16, 16, 16, 16, 16, 16, 16, 16, 16, 16, 16, 16, 16, 16, 16, 16, 16, 16,
    16, 16, 16, 16, 16, 16, 16, 16, 16, 16, 16, 16, 16, 16, 16, 16, 16, 16, 16, 16, 16, 16, 16, 16,
    16, 16, 16, 16, 16, 16, 16, 16, 16, 16, 16, 16, 16, 16, 16, 16, 16, 16, 16, 16, 16, 16, 16, 16,
    16, 16, 16, 16, 16, 16, 16, 16, 16, 16, 16, 16, 16, 16, 16, 16, 16, 16, 16, 16, 16, 16, 16, 16,
    16, 16, 16, 16, 16, 16, 16, 16, 16, 16, 16, 16, 16, 16, 16, 16, 16, 16, 16, 16, 16, 16, 16, 16,
    16, 16, 16, 16, 16, 16, 16, 16, 16, 16, 16, 16, 16, 16, 16, 16, 16, 16, 16, 16, 16, 16, 16, 16,
    16, 16, 16, 16, 16, 16, 16, 16, 16, 16, 16, 16, 16, 16,
];

/// The value of a hexadecimal digit in lower case, or 16 for another byte.
#[inline(always)]
fn value_of(byte: u8) -> u8
    ensures small { result ≤ 16 }
    ensures found { result < 16 → hexadecimal_digit result ≡ byte }
    ensures only { (digit : ℕ) → digit < 16 → hexadecimal_digit digit ≡ byte → result ≡ digit }
{
    VALUES[byte as usize]
}

/// The greater of two bytes.
#[inline(always)]
fn greater(one: u8, other: u8) -> u8
    ensures one { one ≤ result }
    ensures other { other ≤ result }
    ensures below { (n : ℕ) → one < n → other < n → result < n }
{
    if one < other { other } else { one }
}

/// Reads the number at the front of the bytes, in 13 hexadecimal digits of lower case, as the texts
/// of a dictionary write words. Returns it with the bytes after it, or None if fewer than 13 such
/// digits come first. The number is below 2^52, and need not be a pattern's word. It takes no
/// memory. This project's own.
#[inline(always)]
pub fn word_bits(bytes: &[u8]) -> Option<(u64, &[u8])>
    ensures found { IfSome result (λ p. (bytes.now ≡ word_text p.0 ++ p.1.now) × (p.0 < 2 ^ 52)) }
    ensures only { (word : ℕ) → (left : List ℕ) → word < 2 ^ 52
        → bytes.now ≡ word_text word ++ left
        → IsSomeAnd result (λ p. (p.0 ≡ word) × (p.1.now ≡ left)) }
{
    if bytes.len() < 13 {
        return None;
    }
    let mut bits: u64 = 0;
    let mut most = 0;
    for place in 0..13 {
        let value = value_of(bytes[place]);
        most = greater(most, value);
        bits = 16 * bits + u64::from(value);
    }
    if most > 15 {
        return None;
    }
    Some((bits, &bytes[13..]))
}
