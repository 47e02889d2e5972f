//! The sponge under every hash of the crate: it takes a message in pieces, and gives bytes.

ghost use Rattle.std.specs.Prelude.{◌≡◌, ◌+◌, ◌*◌, ◌%◌, ◌<◌, ◌≤◌, [], length, slice_index};
ghost use Rattle.sha3.specs.Keccak.{keccak};
ghost use Rattle.sha3.specs.Sponge.{add_byte, add_bytes, bytes_of, shake_suffix, squeezed};
ghost use Rattle.sha3.specs.Feeding.{feeding, closed, Holds, Grown, Digest};

use crate::keccak::{LANES, State, permute};

/// The bytes of a lane.
pub(crate) const LANE: usize = 8;

/// What follows each message of SHA3: the bits 01, and the first 1 of the padding.
pub(crate) const SHA3_SUFFIX: u8 = 0x06;

/// What follows each message of SHAKE: the bits 1111, and the first 1 of the padding.
const SHAKE_SUFFIX: u8 = 0x1f;

/// The last bit of the padding, the highest of a block's last byte.
const LAST_BIT: u8 = 0x80;

// What follows, up to the sponge, is of a state alone, an array, and asks only that places lie in it: nothing that a sponge holds besides is needed.

/// Adds a byte to byte `at` of the state's string.
fn add_byte(state: &mut State, at: usize, byte: u8)
    requires { at < 200 }
    ensures { state.new ≡ add_byte state.old at byte }
{
    state[at / LANE] ^= u64::from(byte) << (8 * (at % LANE));
}

/// Adds bytes to the state's string from byte `at` on, one by one.
fn add_singly(state: &mut State, at: usize, bytes: &[u8])
    requires { at + length bytes.now ≤ 200 }
    ensures { state.new ≡ add_bytes state.old at bytes.now }
{
    for (i, byte) in bytes.iter().enumerate() {
        add_byte(state, at + i, *byte);
    }
}

/// Adds whole lanes to the state's string, from lane `lane` on: eight bytes at once.
fn add_lanes(state: &mut State, lane: usize, bytes: &[u8])
    requires within { 8 * lane + length bytes.now ≤ 200 }
    requires whole { length bytes.now % 8 ≡ 0 }
    ensures { state.new ≡ add_bytes state.old (8 * lane) bytes.now }
{
    let (words, _) = bytes.as_chunks::<LANE>();
    for (i, word) in words.iter().enumerate() {
        state[lane + i] ^= u64::from_le_bytes(*word);
    }
}

/// Adds bytes to the state's string from byte `at` on: whole lanes at once, and what stands before and after them singly.
fn add_bytes(state: &mut State, at: usize, bytes: &[u8])
    requires { at + length bytes.now ≤ 200 }
    ensures { state.new ≡ add_bytes state.old at bytes.now }
{
    let to_lane = (LANE - at % LANE) % LANE;
    let (head, rest) = bytes.split_at(to_lane.min(bytes.len()));
    let (lanes, tail) = rest.split_at(rest.len() - rest.len() % LANE);
    let end = at + head.len();
    add_singly(state, at, head);
    add_lanes(state, end / LANE, lanes);
    add_singly(state, end + lanes.len(), tail);
}

/// Byte `at` of the state's string, by the shift that `add_byte` goes the other way.
fn byte_of(state: &State, at: usize) -> u8
    requires { at < 200 }
    ensures { result ≡ slice_index (bytes_of state.now) at }
{
    ((state[at / LANE] >> (8 * (at % LANE))) & 0xff) as u8
}

/// A sponge that was fed some bytes: the state, with the bytes of the current block added, and how many these are.
// Clauses read the fields, and no list of bytes as the sponge's value (an `impl Model`): many messages lead to one state.
#[derive(Drop)]
pub struct Sponge {
    state: State,
    at: usize,
    rate: usize,
    suffix: u8,
    ghost has_room: { at < rate },
    ghost block_fits: { rate ≤ 200 },
    ghost suffix_fits: { suffix < 128 },
}

impl Sponge {
    /// A sponge that was fed nothing. The rate is the length of a block in bytes, and the suffix what follows each message.
    pub(crate) fn new(rate: usize, suffix: u8) -> Sponge
        requires some { 0 < rate }
        requires block_fits { rate ≤ 200 }
        requires suffix_fits { suffix < 128 }
        ensures { (result.rate ≡ rate) × (result.suffix ≡ suffix) × Holds rate result.state result.at [] }
    {
        Sponge {
            state: [0; LANES],
            at: 0,
            rate,
            suffix,
        }
    }

    /// SHAKE128, fed nothing. (Callers have its name and the next one's; each is a constant.)
    pub fn shake128() -> Sponge
        ensures { (result.rate ≡ 168) × (result.suffix ≡ shake_suffix) × Holds 168 result.state result.at [] }
    {
        Sponge::new(168, SHAKE_SUFFIX)
    }

    /// SHAKE256, fed nothing.
    pub fn shake256() -> Sponge
        ensures { (result.rate ≡ 136) × (result.suffix ≡ shake_suffix) × Holds 136 result.state result.at [] }
    {
        Sponge::new(136, SHAKE_SUFFIX)
    }

    /// Feeds bytes for which the current block has room, and permutes the state once the block is full.
    fn fill(&mut self, bytes: &[u8])
        requires { self.old.at + length bytes.now ≤ self.old.rate }
        ensures kept { (self.new.rate ≡ self.old.rate) × (self.new.suffix ≡ self.old.suffix) }
        ensures fed { (self.new.state, self.new.at) ≡ feeding self.old.rate (self.old.state, self.old.at) bytes.now }
    {
        add_bytes(&mut self.state, self.at, bytes);
        let at = self.at + bytes.len();
        if at == self.rate {
            permute(&mut self.state);
            self.at = 0;
        } else {
            self.at = at;
        }
    }

    /// Feeds more bytes.
    pub fn update(&mut self, bytes: &[u8])
        ensures kept { (self.new.rate ≡ self.old.rate) × (self.new.suffix ≡ self.old.suffix) }
        ensures fed { Grown self.old.rate self.old.state self.old.at
            self.new.state self.new.at bytes.now }
    {
        let room = self.rate - self.at;
        let (head, rest) = bytes.split_at(room.min(bytes.len()));
        self.fill(head);
        for block in rest.chunks(self.rate) {
            self.fill(block);
        }
    }

    /// Ends the message: its suffix and the padding fill the block.
    fn close(&mut self)
        ensures kept { self.new.rate ≡ self.old.rate }
        ensures closed { self.new.state ≡ closed self.old.rate self.old.suffix (self.old.state, self.old.at) }
    {
        add_byte(&mut self.state, self.at, self.suffix);
        add_byte(&mut self.state, self.rate - 1, LAST_BIT);
    }

    /// Fills `out` with the bytes that the state gives once it is permuted.
    fn squeeze(&mut self, out: &mut [u8])
        ensures { out.new ≡ squeezed self.old.rate (length out.old) (keccak self.old.state) }
    {
        // the place in the block is counted: after a change through a slice's `chunks_mut` a proof knows the slice's length alone
        let mut at = self.rate;
        for byte in out.iter_mut() {
            if at == self.rate {
                permute(&mut self.state);
                at = 0;
            }
            *byte = byte_of(&self.state, at);
            at += 1;
        }
    }

    /// Ends the message, and fills `out` with the first bytes that the sponge gives for it.
    pub fn finish(mut self, out: &mut [u8])
        ensures { Digest self.rate self.suffix self.state self.at (length out.old) out.new }
    {
        self.close();
        self.squeeze(out);
    }
}
