//! SHA3-256 and SHA3-512: one hasher, by the length of its digest.

ghost use Rattle.std.specs.Prelude.{◌≡◌, ℕ, ◌*◌, ◌<◌, List, [], ◌++◌};
ghost use Rattle.sha3.specs.Sponge.{sha3, sha3_256, sha3_512};
ghost use Rattle.sha3.specs.Holding.{Holds};

use crate::keccak::LANES;
use crate::sponge::{LANE, SHA3_SUFFIX, Sponge};

/// The length of a digest of SHA3-256 in bytes.
pub const LENGTH_256: usize = 32;

/// The length of a digest of SHA3-512 in bytes.
pub const LENGTH_512: usize = 64;

/// A message that comes in pieces, and whose digest has `LENGTH` bytes. Twice as many bytes of the state are no part of a block.
#[derive(Drop)]
pub struct Hasher<const LENGTH: usize> {
    sponge: Sponge,
    ghost short: { 2 * LENGTH < 200 },
}

/// A message that comes in pieces, for SHA3-256.
pub type Hasher256 = Hasher<LENGTH_256>;

/// A message that comes in pieces, for SHA3-512.
pub type Hasher512 = Hasher<LENGTH_512>;

// Two functions `new`, over one: for any length it would have to ask that twice the length is below 200.
impl Hasher<LENGTH_256> {
    /// A hasher that was fed nothing.
    pub fn new() -> Hasher256
        ensures { Holds LENGTH_256 result.sponge [] }
    {
        Hasher::empty()
    }
}

impl Hasher<LENGTH_512> {
    /// A hasher that was fed nothing.
    pub fn new() -> Hasher512
        ensures { Holds LENGTH_512 result.sponge [] }
    {
        Hasher::empty()
    }
}

impl<const LENGTH: usize> Hasher<LENGTH> {
    /// A hasher that was fed nothing.
    #[tactic(auto, unfolding(crate::specs::Holding::Fed, crate::specs::Holding::Holds))]
    fn empty() -> Self
        requires { 2 * LENGTH < 200 }
        ensures { Holds LENGTH result.sponge [] }
    {
        Hasher {
            sponge: Sponge::new(LANES * LANE - 2 * LENGTH, SHA3_SUFFIX),
        }
    }

    /// Feeds more bytes.
    pub fn update(&mut self, bytes: &[u8])
        ensures { (fed : List ℕ) → Holds LENGTH self.old.sponge fed → Holds LENGTH self.new.sponge (fed ++ bytes.now) }
    {
        self.sponge.update(bytes);
    }

    /// The digest of what was fed.
    pub fn finish(self) -> [u8; LENGTH]
        ensures { (fed : List ℕ) → Holds LENGTH self.entry.sponge fed → result ≡ sha3 LENGTH fed }
    {
        let Hasher { sponge } = self;
        let mut digest = [0; LENGTH];
        sponge.finish(&mut digest);
        digest
    }
}

/// The digest of a whole message.
fn digest_of<const LENGTH: usize>(bytes: &[u8]) -> [u8; LENGTH]
    requires { 2 * LENGTH < 200 }
    ensures { result ≡ sha3 LENGTH bytes.now }
{
    let mut hasher = Hasher::empty();
    hasher.update(bytes);
    hasher.finish()
}

/// The digest of a whole message by SHA3-256.
pub fn sha3_256(bytes: &[u8]) -> [u8; LENGTH_256]
    ensures { result ≡ sha3_256 bytes.now }
{
    digest_of(bytes)
}

/// The digest of a whole message by SHA3-512.
pub fn sha3_512(bytes: &[u8]) -> [u8; LENGTH_512]
    ensures { result ≡ sha3_512 bytes.now }
{
    digest_of(bytes)
}
