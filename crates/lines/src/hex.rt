// Bytes in hexadecimal: two lower-case digits for each byte, the higher first. (The library's crate `hex` reads capital digits too, which no line may have.)
ghost use Rattle.std.specs.Prelude.{◌≡◌, ℕ, ◌*◌, ◌<◌, ◌++◌, List, length, vec_items, IfOk, OnOk, Some, None, MatchOption};
ghost use Rattle.std.specs.Option.{option_map};
ghost use Rattle.lines.specs.Hex.{digit_of, Small, character_of, byte_of, decoded, pairs_decoded, array_of, hex_of, Spells};

use std::alloc::{AllocError, Global};

/// The value of a digit.
fn value(digit: u8) -> Option<u8>
    ensures is { result ≡ digit_of digit }
    ensures small { Small result }
{
    match digit {
        b'0'..=b'9' => Some(digit - b'0'),
        b'a'..=b'f' => Some(digit - b'a' + 10),
        _ => None,
    }
}

/// The digit of a value. (`char::from_digit` answers an `Option` of a `char`, no plainer for a byte.)
fn character(value: u8) -> u8
    requires { value < 16 }
    ensures { result ≡ character_of value }
{
    if value < 10 {
        b'0' + value
    } else {
        b'a' + (value - 10)
    }
}

/// The byte that two digits write.
fn byte(high: u8, low: u8) -> Option<u8>
    ensures { result ≡ byte_of high low }
{
    Some(16 * value(high)? + value(low)?)
}

/// The digits two by two, where none is left over.
#[tactic(auto, using(std::proofs::lemmas::Grind::common_steps, crate::proofs::Decoding::decoded_by_chunks, crate::proofs::Decoding::decoded_odd))]
fn pairs(digits: &[u8]) -> Option<&[[u8; 2]]>
    ensures { MatchOption result
        (decoded digits.now ≡ None)
        (λ pairs. (decoded digits.now ≡ pairs_decoded pairs.now) × (length digits.now ≡ 2 * length pairs.now)) }
{
    let (pairs, rest) = digits.as_chunks();
    if rest.is_empty() { Some(pairs) } else { None }
}

/// The bytes that digits write: an even number of them and nothing else, none included.
pub fn decode(heap: Global, digits: &[u8]) -> Result<Option<Vec<u8>>, AllocError>
    ensures { IfOk result (λ o. option_map vec_items o ≡ decoded digits.now) }
{
    let Some(pairs) = pairs(digits) else {
        return Ok(None);
    };
    let mut bytes = Vec::new(heap);
    for [high, low] in pairs {
        let Some(byte) = byte(*high, *low) else {
            return Ok(None);
        };
        bytes.push(byte)?;
    }
    Ok(Some(bytes))
}

/// The bytes that digits write, where there are two digits or more.
pub fn bytes_of(heap: Global, digits: &[u8]) -> Result<Option<Vec<u8>>, AllocError>
    ensures { IfOk result (λ o. elim o [
      | Some v ↦ Spells digits.now v.items
      | None ↦ ((bytes : List ℕ) → Spells digits.now bytes → ⊥)
    ]) }
{
    if digits.is_empty() {
        return Ok(None);
    }
    decode(heap, digits)
}

/// The N bytes that exactly 2 N digits write.
pub fn array_of<const N: usize>(digits: &[u8]) -> Option<[u8; N]>
    ensures { result ≡ array_of N digits.now }
{
    let pairs = pairs(digits)?;
    if pairs.len() != N {
        return None;
    }
    let mut bytes = [0; N];
    // an index, and no `zip` with `iter_mut`, of which a proof knows the length alone afterwards
    for (i, [high, low]) in pairs.iter().enumerate() {
        bytes[i] = byte(*high, *low)?;
    }
    Some(bytes)
}

/// Appends the digits of some bytes.
pub fn append(digits: &mut Vec<u8>, bytes: &[u8]) -> Result<(), AllocError>
    ensures { OnOk result (digits.new.items ≡ digits.old.items ++ hex_of bytes.now) }
{
    for byte in bytes {
        digits.push(character(*byte / 16))?;
        digits.push(character(*byte % 16))?;
    }
    Ok(())
}

/// The digits of some bytes, as bytes, since lines are bytes.
pub fn digits_of(heap: Global, bytes: &[u8]) -> Result<Vec<u8>, AllocError>
    ensures { IfOk result (λ v. v.items ≡ hex_of bytes.now) }
{
    let mut digits = Vec::new(heap);
    append(&mut digits, bytes)?;
    Ok(digits)
}
