//! SHA3 and SHAKE as FIPS 202 defines them: of whole messages, and piece by piece.
//!
//! `specs/Sponge.antt` has the definition, and each function here says that it gives the definition's bytes.
//! A hasher holds the bytes that it was fed: none when it is new, more with each `update`; `finish` gives the digest of all of them.
#![tactic(auto)]

mod digest;
mod keccak;
mod shake;
mod sponge;
pub mod theorems;

pub use digest::{Hasher, Hasher256, Hasher512, LENGTH_256, LENGTH_512, sha3_256, sha3_512};
pub use shake::{shake128, shake256};
pub use sponge::Sponge;
