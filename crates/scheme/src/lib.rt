//! Signatures: the trait that every program signs and checks by, and the scheme for rehearsals.
#![tactic(auto)]

mod keys;
mod record;
mod rehearsal;
mod signing;

pub use keys::{Keys, KeysError, keys_laws};
pub use rehearsal::Rehearsal;
pub use rehearsal::seat::SIGNATURE_LENGTH;
pub use signing::{Scheme, SignError, ideal_laws};

#[cfg(test)]
mod tests {
    use crate::*;
    use std::test::Fail;

    // Two members, whose secrets are the bytes 0 to 31 and 32 bytes of 255; the last line feed is left out.
    const FILE: &[u8] =
        b"000102030405060708090a0b0c0d0e0f101112131415161718191a1b1c1d1e1f\nffffffffffffffffffffffffffffffffffffffffffffffffffffffffffffffff";

    // SHA3-512 of the first secret and `abc`, as Python's hashlib gives it.
    const ABC_BY_FIRST: [u8; 64] = [
        0xf7, 0x74, 0xf3, 0xde, 0x9f, 0x5b, 0x5d, 0xd2, 0xce, 0x97, 0x98, 0xf6, 0x0e, 0x81, 0x78,
        0x57, 0x2b, 0x88, 0xe5, 0x34, 0x13, 0x8a, 0xa4, 0xec, 0x5b, 0xef, 0xab, 0xc8, 0x48, 0xa7,
        0x74, 0xd2, 0xa6, 0xf2, 0x8e, 0x3a, 0x53, 0xca, 0x2a, 0x4f, 0x67, 0xb7, 0xf5, 0xb7, 0xab,
        0x54, 0xd4, 0x31, 0x4e, 0x06, 0xc3, 0x50, 0xaf, 0xb1, 0x50, 0x35, 0x50, 0x4d, 0x8d, 0x8c,
        0x70, 0x94, 0x05, 0x5c,
    ];

    #[test]
    fn signs_as_another_implementation(rt: HostRuntime) -> Result<(), Fail> {
        let keys = Keys::parse(rt.alloc(), 2, FILE)?;
        let mut seat = Rehearsal::new(keys, 0).ok_or("no such member")?;
        let signature = seat.sign(b"abc")?;
        assert!(rt; signature == ABC_BY_FIRST);
        assert!(rt; seat.check(0, b"abc", &signature), "its own");
        assert!(rt; !seat.check(1, b"abc", &signature), "another member's");
        assert!(rt; !seat.check(2, b"abc", &signature), "nobody's");
        assert!(rt; !seat.check(0, b"abd", &signature), "of another message");
        assert!(rt; !seat.check(0, b"abc", &signature[0..63]), "too short");
        let mut flipped = signature;
        flipped[63] ^= 1;
        assert!(rt; !seat.check(0, b"abc", &flipped), "a flipped bit");
        Ok(())
    }

    #[test]
    fn names_the_wrong_line(rt: HostRuntime) {
        let heap = rt.alloc();
        assert!(rt; Keys::parse(heap, 3, FILE).err() == Some(KeysError::Missing { line: 3 }));
        assert!(rt; Keys::parse(heap, 1, FILE).err() == Some(KeysError::TooMany { line: 2 }));
        assert!(rt;
            Keys::parse(heap, 2, &FILE[0..128]).err() == Some(KeysError::NotASecret { line: 2 })
        );
        assert!(rt;
            Keys::parse(heap, 2, &FILE[1..]).err() == Some(KeysError::NotASecret { line: 1 })
        );
        assert!(rt; Keys::parse(heap, 0, b"\n").err() == Some(KeysError::TooMany { line: 1 }));
        assert!(rt; Keys::parse(heap, 0, b"").is_ok());
    }
}
