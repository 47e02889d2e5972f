//! SHA3-256 and SHA3-512 for programs of other languages, which link this static library.
#![tactic(auto)]

ghost use Rattle.std.specs.Prelude.{◌≡◌};
ghost use Rattle.sha3.specs.Sponge.{sha3_256, sha3_512};

use sha3::{LENGTH_256, LENGTH_512, sha3_256, sha3_512};

// C calls each by a name of its own, so there are two.

/// Writes SHA3-256 of `bytes` to `digest`.
#[unsafe(no_mangle)]
pub extern "C" fn rattle_sha3_256(bytes: &[u8], digest: &mut [u8; LENGTH_256])
    ensures { digest.new ≡ sha3_256 bytes.now }
{
    *digest = sha3_256(bytes);
}

/// Writes SHA3-512 of `bytes` to `digest`.
#[unsafe(no_mangle)]
pub extern "C" fn rattle_sha3_512(bytes: &[u8], digest: &mut [u8; LENGTH_512])
    ensures { digest.new ≡ sha3_512 bytes.now }
{
    *digest = sha3_512(bytes);
}
