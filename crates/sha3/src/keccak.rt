//! Keccak-f[1600], the permutation under SHA3 and SHAKE, on 25 lanes of 64 bits.
//!
//! Each step mapping is a function of its own, so that each is proved by itself; compiled, all are one loop.
//! They name all 25 lanes, so that these stay in registers: with loops over the lanes a digest takes six times as long.

ghost use Rattle.std.specs.Prelude.{◌≡◌};
ghost use Rattle.sha3.specs.Keccak.{theta as theta_of, rho as rho_of, pi as pi_of, chi as chi_of, iota as iota_of, keccak_round, keccak};

/// The number of lanes in a state. Lane (x, y) stands at x + 5 y.
pub const LANES: usize = 25;

/// A state of 1600 bits.
pub type State = [u64; LANES];

/// The number of rounds of Keccak-f[1600].
const ROUNDS: usize = 24;

/// What iota adds to lane (0, 0) in each round.
const ROUND_CONSTANTS: [u64; ROUNDS] = [
    0x0000_0000_0000_0001,
    0x0000_0000_0000_8082,
    0x8000_0000_0000_808a,
    0x8000_0000_8000_8000,
    0x0000_0000_0000_808b,
    0x0000_0000_8000_0001,
    0x8000_0000_8000_8081,
    0x8000_0000_0000_8009,
    0x0000_0000_0000_008a,
    0x0000_0000_0000_0088,
    0x0000_0000_8000_8009,
    0x0000_0000_8000_000a,
    0x0000_0000_8000_808b,
    0x8000_0000_0000_008b,
    0x8000_0000_0000_8089,
    0x8000_0000_0000_8003,
    0x8000_0000_0000_8002,
    0x8000_0000_0000_0080,
    0x0000_0000_0000_800a,
    0x8000_0000_8000_000a,
    0x8000_0000_8000_8081,
    0x8000_0000_0000_8080,
    0x0000_0000_8000_0001,
    0x8000_0000_8000_8008,
];

/// Adds to each lane the parities of two columns beside its own.
fn theta(a: State) -> State
    ensures { result ≡ theta_of a }
{
    let [
        a0,
        a1,
        a2,
        a3,
        a4,
        a5,
        a6,
        a7,
        a8,
        a9,
        a10,
        a11,
        a12,
        a13,
        a14,
        a15,
        a16,
        a17,
        a18,
        a19,
        a20,
        a21,
        a22,
        a23,
        a24,
    ] = a;
    let c0 = a0 ^ a5 ^ a10 ^ a15 ^ a20;
    let c1 = a1 ^ a6 ^ a11 ^ a16 ^ a21;
    let c2 = a2 ^ a7 ^ a12 ^ a17 ^ a22;
    let c3 = a3 ^ a8 ^ a13 ^ a18 ^ a23;
    let c4 = a4 ^ a9 ^ a14 ^ a19 ^ a24;
    let d0 = c4 ^ c1.rotate_left(1);
    let d1 = c0 ^ c2.rotate_left(1);
    let d2 = c1 ^ c3.rotate_left(1);
    let d3 = c2 ^ c4.rotate_left(1);
    let d4 = c3 ^ c0.rotate_left(1);
    [
        a0 ^ d0,
        a1 ^ d1,
        a2 ^ d2,
        a3 ^ d3,
        a4 ^ d4,
        a5 ^ d0,
        a6 ^ d1,
        a7 ^ d2,
        a8 ^ d3,
        a9 ^ d4,
        a10 ^ d0,
        a11 ^ d1,
        a12 ^ d2,
        a13 ^ d3,
        a14 ^ d4,
        a15 ^ d0,
        a16 ^ d1,
        a17 ^ d2,
        a18 ^ d3,
        a19 ^ d4,
        a20 ^ d0,
        a21 ^ d1,
        a22 ^ d2,
        a23 ^ d3,
        a24 ^ d4,
    ]
}

/// Rotates each lane by its offset.
fn rho(a: State) -> State
    ensures { result ≡ rho_of a }
{
    let [
        a0,
        a1,
        a2,
        a3,
        a4,
        a5,
        a6,
        a7,
        a8,
        a9,
        a10,
        a11,
        a12,
        a13,
        a14,
        a15,
        a16,
        a17,
        a18,
        a19,
        a20,
        a21,
        a22,
        a23,
        a24,
    ] = a;
    [
        a0.rotate_left(0),
        a1.rotate_left(1),
        a2.rotate_left(62),
        a3.rotate_left(28),
        a4.rotate_left(27),
        a5.rotate_left(36),
        a6.rotate_left(44),
        a7.rotate_left(6),
        a8.rotate_left(55),
        a9.rotate_left(20),
        a10.rotate_left(3),
        a11.rotate_left(10),
        a12.rotate_left(43),
        a13.rotate_left(25),
        a14.rotate_left(39),
        a15.rotate_left(41),
        a16.rotate_left(45),
        a17.rotate_left(15),
        a18.rotate_left(21),
        a19.rotate_left(8),
        a20.rotate_left(18),
        a21.rotate_left(2),
        a22.rotate_left(61),
        a23.rotate_left(56),
        a24.rotate_left(14),
    ]
}

/// Moves each lane to its new place.
fn pi(a: State) -> State
    ensures { result ≡ pi_of a }
{
    let [
        a0,
        a1,
        a2,
        a3,
        a4,
        a5,
        a6,
        a7,
        a8,
        a9,
        a10,
        a11,
        a12,
        a13,
        a14,
        a15,
        a16,
        a17,
        a18,
        a19,
        a20,
        a21,
        a22,
        a23,
        a24,
    ] = a;
    [
        a0, a6, a12, a18, a24, a3, a9, a10, a16, a22, a1, a7, a13, a19, a20, a4, a5, a11, a17, a23,
        a2, a8, a14, a15, a21,
    ]
}

/// Mixes each lane with the two to its right: the one step that is not linear.
fn chi(a: State) -> State
    ensures { result ≡ chi_of a }
{
    let [
        a0,
        a1,
        a2,
        a3,
        a4,
        a5,
        a6,
        a7,
        a8,
        a9,
        a10,
        a11,
        a12,
        a13,
        a14,
        a15,
        a16,
        a17,
        a18,
        a19,
        a20,
        a21,
        a22,
        a23,
        a24,
    ] = a;
    [
        a0 ^ (!a1 & a2),
        a1 ^ (!a2 & a3),
        a2 ^ (!a3 & a4),
        a3 ^ (!a4 & a0),
        a4 ^ (!a0 & a1),
        a5 ^ (!a6 & a7),
        a6 ^ (!a7 & a8),
        a7 ^ (!a8 & a9),
        a8 ^ (!a9 & a5),
        a9 ^ (!a5 & a6),
        a10 ^ (!a11 & a12),
        a11 ^ (!a12 & a13),
        a12 ^ (!a13 & a14),
        a13 ^ (!a14 & a10),
        a14 ^ (!a10 & a11),
        a15 ^ (!a16 & a17),
        a16 ^ (!a17 & a18),
        a17 ^ (!a18 & a19),
        a18 ^ (!a19 & a15),
        a19 ^ (!a15 & a16),
        a20 ^ (!a21 & a22),
        a21 ^ (!a22 & a23),
        a22 ^ (!a23 & a24),
        a23 ^ (!a24 & a20),
        a24 ^ (!a20 & a21),
    ]
}

/// Adds the round constant.
fn iota(a: State, constant: u64) -> State
    ensures { result ≡ iota_of a constant }
{
    let mut b = a;
    b[0] ^= constant;
    b
}

/// One round.
fn round(a: State, constant: u64) -> State
    ensures { result ≡ keccak_round a constant }
{
    iota(chi(pi(rho(theta(a)))), constant)
}

/// All 24 rounds.
pub fn permute(state: &mut State)
    ensures { state.new ≡ keccak state.old }
{
    let mut a = *state;
    for constant in ROUND_CONSTANTS {
        // The call's result goes through a variable of its own: the check gives no proof for one that is written over an array at once. (Of a `fold` over
        // the constants it finds none either.)
        let next = round(a, constant);
        a = next;
    }
    *state = a;
}
