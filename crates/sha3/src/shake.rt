//! SHAKE128 and SHAKE256 of whole messages, with output of any length.

ghost use Rattle.std.specs.Prelude.{◌≡◌, [], length};
ghost use Rattle.sha3.specs.Sponge.{shake128 as shake128_of, shake256 as shake256_of, sponge as sponge_of};
ghost use Rattle.sha3.specs.Feeding.{Holds};

use crate::sponge::Sponge;

/// Fills `out` with the first bytes of SHAKE128 of a message.
pub fn shake128(bytes: &[u8], out: &mut [u8])
    ensures { out.new ≡ shake128_of (length out.old) bytes.now }
{
    squeeze_whole(Sponge::shake128(), bytes, out);
}

/// Fills `out` with the first bytes of SHAKE256 of a message.
pub fn shake256(bytes: &[u8], out: &mut [u8])
    ensures { out.new ≡ shake256_of (length out.old) bytes.now }
{
    squeeze_whole(Sponge::shake256(), bytes, out);
}

/// Fills `out` with the first bytes that a sponge, which was fed nothing, gives for a message.
fn squeeze_whole(mut sponge: Sponge, bytes: &[u8], out: &mut [u8])
    requires { Holds sponge.rate sponge.state sponge.at [] }
    ensures { out.new ≡ sponge_of sponge.rate sponge.suffix (length out.old) bytes.now }
{
    sponge.update(bytes);
    sponge.finish(out);
}
