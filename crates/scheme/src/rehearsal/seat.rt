//! What a seat in a rehearsal does.

ghost use Rattle.std.specs.Prelude.{◌≡◌, ◌<◌, ◌≤◌, [], ◌++◌, length, MatchOption};
ghost use Rattle.sha3.specs.Sponge.{sha3_512};
ghost use Rattle.scheme.specs.Bytes.{same, differences};
ghost use Rattle.scheme.specs.Keys.{keys_of};
ghost use Rattle.scheme.specs.Rehearsal.{right_for, signature_by, seat_keys, seat_member, seat_secret, seat_said};

use crate::keys::{Keys, Secret};
use crate::record::Record;
use crate::rehearsal::Rehearsal;
use crate::signing::{Scheme, SignError};
use sha3::Hasher512;

/// The length of a signature in bytes.
pub const SIGNATURE_LENGTH: usize = 64;

/// The signature of a message by the member with this secret.
fn signature_by(secret: &Secret, message: &[u8]) -> [u8; SIGNATURE_LENGTH]
    ensures { result ≡ sha3_512 (secret.now.0 ++ message.now) }
{
    let mut hasher = Hasher512::new();
    hasher.update(&secret.0);
    hasher.update(message);
    hasher.finish()
}

/// In which bits two lists of bytes differ anywhere, as far as both go.
fn differences(xs: &[u8], ys: &[u8]) -> u8
    ensures { result ≡ differences xs.now ys.now }
{
    xs.iter().zip(ys).fold(0, |found, (x, y)| found | (*x ^ *y))
}

/// Whether two signatures are equal. It looks at all bytes, wherever they differ.
#[tactic(auto, using(std::proofs::lemmas::Grind::common_steps, crate::proofs::Bytes::same_by_differences))]
fn equal(given: &[u8], right: &[u8; SIGNATURE_LENGTH]) -> bool
    ensures { result ≡ same given.now right.now }
{
    if given.len() != SIGNATURE_LENGTH {
        return false;
    }
    differences(given, right) == 0
}

impl Rehearsal {
    /// The seat of a member, which has signed nothing; none where there is no such member.
    pub fn new(keys: Keys, me: u32) -> Option<Rehearsal>
        ensures { MatchOption result
            (length (keys_of keys) ≤ me)
            (λ seat. (me < length (keys_of keys)) × (seat_keys seat ≡ keys_of keys) × (seat_member seat ≡ me) × (seat_said seat ≡ [])) }
    {
        if me as usize >= keys.secrets.len() {
            return None;
        }
        Some(Rehearsal {
            keys,
            me,
            record: Record::new(),
        })
    }
}

impl Scheme<SIGNATURE_LENGTH> for Rehearsal {
    ghost keys = { seat_keys };

    ghost right = { right_for };

    ghost me = { seat_member };

    ghost secret = { seat_secret };

    ghost signs = { signature_by };

    ghost said = { seat_said };

    fn check(&self, member: u32, message: &[u8], signature: &[u8]) -> bool {
        // two cases: with `is_some_and` in their place the check leaves the clauses unproved
        match self.keys.secrets.get(member as usize) {
            Some(secret) => equal(signature, &signature_by(secret, message)),
            None => false,
        }
    }

    fn sign(&mut self, message: &[u8]) -> Result<[u8; SIGNATURE_LENGTH], SignError> {
        let signature = signature_by(&self.keys.secrets[self.me as usize], message);
        self.record = self.record.with(message);
        Ok(signature)
    }
}
