//! What the program prints for a line. Lines and answers are bytes, as the line that is read may be any.

ghost use Rattle.std.specs.Prelude.{◌≡◌, IfOk, codes};
ghost use Rattle.digest.specs.Answer.{answer_of, digests_of};

use lines::hex;
use sha3::{sha3_256, sha3_512};
use std::alloc::{AllocError, Global};

/// The answer for a line: both digests with a space between them, or `no`.
pub fn answer(heap: Global, line: &[u8]) -> Result<Vec<u8>, AllocError>
    ensures { IfOk result (λ v. v.items ≡ answer_of line.now) }
{
    match hex::decode(heap, line)? {
        Some(message) => digests(heap, &message),
        None => refusal(heap),
    }
}

/// What is printed for a line that writes no bytes.
fn refusal(heap: Global) -> Result<Vec<u8>, AllocError>
    ensures { IfOk result (λ v. v.items ≡ codes "no") }
{
    // `Vec::from_slice` makes room for no byte more, and the line's end would ask for memory again
    let mut text = Vec::new(heap);
    text.extend_from_slice(b"no")?;
    Ok(text)
}

/// Both digests of a message as text.
fn digests(heap: Global, message: &[u8]) -> Result<Vec<u8>, AllocError>
    ensures { IfOk result (λ v. v.items ≡ digests_of message.now) }
{
    let mut text = Vec::new(heap);
    hex::append(&mut text, &sha3_256(message))?;
    text.push(b' ')?;
    hex::append(&mut text, &sha3_512(message))?;
    Ok(text)
}
