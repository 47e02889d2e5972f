//! The trait of signature schemes.

ghost use Rattle.std.specs.Prelude.{◌≡◌, ℕ, ◌<◌, Bool, true, List, ◌∷◌, length, IfOk, Some, codes, Option, MatchResult};
ghost use Rattle.std.specs.Result.{result_ok};
ghost use Rattle.scheme.specs.Ideal.{UnforgedStays, UnforgedJoins, IdealCanBeMet};

use std::fmt;

/// Why a message was not signed.
#[derive(Clone, Copy, Debug, PartialEq, Eq)]
pub enum SignError {
    /// The scheme signs a bounded number of messages, and this seat has signed that many.
    KeysUsedUp,
}

// by hand: a derive of it doesn't state the text
impl fmt::Display for SignError {
    ghost output = { λ _. Some (codes "the keys to sign with are used up") };

    fn fmt<W: fmt::Write>(&self, f: &mut fmt::Formatter<W>) -> fmt::Result {
        write!(f, "the keys to sign with are used up")
    }
}

/// A seat that signs as one member, and checks the signatures of all. A signature has `LENGTH` bytes.
///
/// The ghost members say what a scheme is: `right` who signed what, as far as bytes can tell; `said` what this seat signed.
/// Checking accepts what signing made: the clause `accepted`. What is accepted stands in the record of who signed what only
/// while nobody forges, which no contract can promise: specs/Ideal.antt states it, for theorems about runs to assume.
///
/// A struct over a scheme has the ghost field `{ LENGTH < 2 ^ 63 }`, which an array of that length asks for; its methods then
/// sign and keep signatures with no clause of their own for it.
pub trait Scheme<const LENGTH: usize> {
    // What each member is known by, in the order of the members. Seats that have the same keys accept the same signatures.
    ghost keys: { Self → List (List ℕ) };

    // With these keys, whether a member's signature of a message is right: keys, member, message, signature.
    ghost right: { List (List ℕ) → ℕ → List ℕ → List ℕ → Bool };

    // The member whose seat this is.
    ghost me: { Self → ℕ };

    // What this seat's signatures are made from. It never changes.
    ghost secret: { Self → List ℕ };

    // What a seat with this secret, which has signed these messages, signs the next by; none where its keys are used up.
    // So all that a seat ever signs is a function of its secret and of the messages.
    ghost signs: { List ℕ → List (List ℕ) → List ℕ → Option (List ℕ) };

    // The messages that this seat has signed, the newest first.
    ghost said: { Self → List (List ℕ) };

    /// Whether it is that member's right signature of the message. One of another length is not, nor is an absent member's.
    fn check(&self, member: u32, message: &[u8], signature: &[u8]) -> bool
        ensures value { result ≡ right (keys self.now) member message.now signature.now }
        ensures long { result ≡ true → length signature.now ≡ LENGTH }
        ensures there { result ≡ true → member < length (keys self.now) };

    /// Signs a message as the seat's member. A success adds the message to what the seat has said, and nothing else changes.
    fn sign(&mut self, message: &[u8]) -> Result<[u8; LENGTH], SignError>
        ensures value { result_ok result ≡ signs (secret self.old) (said self.old) message.now }
        ensures accepted { IfOk result (λ s. right (keys self.old) (me self.old) message.now s ≡ true) }
        ensures said { MatchResult result
            (λ _. said self.new ≡ message.now ∷ said self.old)
            (λ _. said self.new ≡ said self.old) }
        ensures keys { keys self.new ≡ keys self.old }
        ensures me { me self.new ≡ me self.old }
        ensures secret { secret self.new ≡ secret self.old };
}

/// The laws of what an ideal scheme promises, as theorems: see specs/Ideal.antt.
pub fn ideal_laws() -> u8
    ensures stays { UnforgedStays }
    ensures joins { UnforgedJoins }
    ensures met { IdealCanBeMet }
{
    0
}
