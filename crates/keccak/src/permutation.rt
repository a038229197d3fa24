//! The permutation Keccak-f[1600] of FIPS 202. Lane (x, y) of a state is number x + 5 * y.

ghost use Rattle.std.specs.Prelude.{◌≡◌, ℕ, ◌<◌, slice_index};
ghost use Rattle.keccak.specs.Permutation.{
  by_lane,
  parity,
  theta as theta_of,
  rho as rho_of,
  pi as pi_of,
  chi as chi_of,
  iota as iota_of,
  round_constants,
  keccak_f,
};

use std::array::from_fn;

#[rattlefmt::skip]
const ROUND_CONSTANTS: [u64; 24] = [
    0x0000000000000001, 0x0000000000008082, 0x800000000000808a, 0x8000000080008000,
    0x000000000000808b, 0x0000000080000001, 0x8000000080008081, 0x8000000000008009,
    0x000000000000008a, 0x0000000000000088, 0x0000000080008009, 0x000000008000000a,
    0x000000008000808b, 0x800000000000008b, 0x8000000000008089, 0x8000000000008003,
    0x8000000000008002, 0x8000000000000080, 0x000000000000800a, 0x800000008000000a,
    0x8000000080008081, 0x8000000000008080, 0x0000000080000001, 0x8000000080008008,
];

/// The offset of lane (x, y) is number x + 5 * y.
#[rattlefmt::skip]
const ROTATION_OFFSETS: [u32; 25] = [
     0,  1, 62, 28, 27,
    36, 44,  6, 55, 20,
     3, 10, 43, 25, 39,
    41, 45, 15, 21,  8,
    18,  2, 61, 56, 14,
];

/// The state whose lane (x, y) is `lane(x, y)`.
#[tactic(auto, using(crate::proofs::Fills::filled_more))]
fn by_lane<F: Fn(usize, usize) -> u64>(lane: F) -> [u64; 25]
    requires { (x y : ℕ) → x < 5 → y < 5 → F.pre lane x y }
    ensures { (f : ℕ → ℕ → ℕ) → ((x y v : ℕ) → x < 5 → y < 5 → F.post lane x y v → v ≡ f x y)
        → result ≡ by_lane f }
{
    let mut lanes = [0; 25];
    for y in 0..5 {
        for x in 0..5 {
            lanes[x + 5 * y] = lane(x, y);
        }
    }
    lanes
}

/// The parities of the five columns.
fn parities(lanes: [u64; 25]) -> [u64; 5]
    ensures { (x : ℕ) → x < 5 → slice_index result x ≡ parity lanes x }
{
    from_fn(|x| lanes[x] ^ lanes[x + 5] ^ lanes[x + 10] ^ lanes[x + 15] ^ lanes[x + 20])
}

/// Adds to each lane the parities of two columns beside it.
#[tactic(auto, unfolding(crate::specs::Permutation::theta))]
fn theta(lanes: [u64; 25]) -> [u64; 25]
    ensures { result ≡ theta_of lanes }
{
    let sums = parities(lanes);
    by_lane(|x, y| {
        let effect = sums[(x + 4) % 5] ^ sums[(x + 1) % 5].rotate_left(1);
        lanes[x + 5 * y] ^ effect
    })
}

/// Rotates each lane by the offset of its place.
#[tactic(auto, unfolding(crate::specs::Permutation::rho))]
fn rho(lanes: [u64; 25]) -> [u64; 25]
    ensures { result ≡ rho_of lanes }
{
    by_lane(|x, y| lanes[x + 5 * y].rotate_left(ROTATION_OFFSETS[x + 5 * y]))
}

/// Moves the lanes to other places.
#[tactic(auto, unfolding(crate::specs::Permutation::pi))]
fn pi(lanes: [u64; 25]) -> [u64; 25]
    ensures { result ≡ pi_of lanes }
{
    by_lane(|x, y| lanes[(x + 3 * y) % 5 + 5 * x])
}

/// Adds to each lane the product of the next two of its row, the first of them complemented.
#[tactic(auto, unfolding(crate::specs::Permutation::chi))]
fn chi(lanes: [u64; 25]) -> [u64; 25]
    ensures { result ≡ chi_of lanes }
{
    by_lane(|x, y| {
        let product = !lanes[(x + 1) % 5 + 5 * y] & lanes[(x + 2) % 5 + 5 * y];
        lanes[x + 5 * y] ^ product
    })
}

/// Adds the constant of a round to lane (0, 0).
#[tactic(auto, unfolding(crate::specs::Permutation::iota))]
fn iota(mut lanes: [u64; 25], constant: u64) -> [u64; 25]
    ensures { (round : ℕ) → constant ≡ slice_index round_constants round
        → result ≡ iota_of round lanes }
{
    lanes[0] ^= constant;
    lanes
}

/// Permutes a state, in 24 rounds.
#[tactic(auto, using(crate::proofs::Rounds::round_steps))]
pub(crate) fn keccak_f(lanes: &mut [u64; 25])
    ensures { lanes.new ≡ keccak_f lanes.old }
{
    let mut state = *lanes;
    for constant in ROUND_CONSTANTS {
        state = iota(chi(pi(rho(theta(state)))), constant);
    }
    *lanes = state;
}
