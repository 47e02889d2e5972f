// Numbers in decimal digits.
ghost use Rattle.std.specs.Prelude.{◌≡◌, ℕ, ◌+◌, ◌-◌, ◌*◌, ◌^◌, ◌≤◌, T, Some, None};
ghost use Rattle.std.specs.Char.{is_ascii_digit};
ghost use Rattle.lines.specs.Numbers.{Writes};

const BASE: u32 = 10;

/// The number with one more digit behind it, where the byte is a digit and the number fits.
fn with_digit(value: u32, byte: u8) -> Option<u32>
    ensures { elim result [
      | Some n ↦ T (is_ascii_digit byte) × (n ≡ value * 10 + (byte - 48))
      | None ↦ (T (is_ascii_digit byte) → 2 ^ 32 ≤ value * 10 + (byte - 48))
    ] }
{
    let digit = char::from(byte).to_digit(BASE)?;
    value.checked_mul(BASE)?.checked_add(digit)
}

/// The number that is written by these digits, where there is one or more, nothing else, and the number fits.
pub fn number(digits: &[u8]) -> Option<u32>
    ensures { elim result [
      | Some n ↦ Writes digits.now n
      | None ↦ ((n : ℕ) → Writes digits.now n → 2 ^ 32 ≤ n)
    ] }
{
    if digits.is_empty() {
        return None;
    }
    // the library's `parse` would take a plus sign in front, and `try_fold` say no more than the loop
    let mut value = 0;
    for byte in digits {
        value = with_digit(value, *byte)?;
    }
    Some(value)
}
