//! The scheme for rehearsals: SHA3-512 of a secret and the message. All members know all secrets.

pub mod seat;

ghost use Rattle.std.specs.Prelude.{◌<◌, vec_len};

use crate::keys::Keys;
use crate::record::Record;

/// A member's seat in a rehearsal.
#[derive(Drop)]
pub struct Rehearsal {
    keys: Keys,
    me: u32,
    record: Record,
    ghost seated: { me < vec_len keys.secrets },
}
