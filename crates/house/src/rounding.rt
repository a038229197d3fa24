//! House rounding: a residue goes to a value in 0 .. p of its own class modulo step, and back.

ghost use Rattle.std.specs.Prelude.{◌≡◌, ◌+◌, ◌*◌, ◌/◌, ◌^◌, ◌<◌, ◌≤◌};
ghost use Rattle.house.specs.Rounding.{recover as recover_value, round as round_value};

/// The numbers that residues are rounded by.
#[derive(Clone, Copy)]
pub(crate) struct Rounding {
    pub(crate) q: u32,
    pub(crate) p: u32,
    pub(crate) step: u32,
    ghost positive: { 0 < p },
    ghost p_below: { p < 2 ^ 15 },
    ghost less: { p < q },
    ghost q_below: { q < 2 ^ 23 },
    ghost step_least: { 1 ≤ step },
    ghost step_most: { step ≤ 2 },
}

impl Rounding {
    /// The least integer at or above floor(y q / p) that differs from y by a multiple of step.
    pub(crate) fn recover(self, y: u32) -> u32
        requires { y ≤ self.p }
        ensures { result ≡ recover_value self.q self.p self.step y }
    {
        // floor(y q / p), in parts that fit 32 bits
        let floor = y * (self.q / self.p) + y * (self.q % self.p) / self.p;
        floor + (floor + y) % self.step
    }

    /// The value in 0 .. p of the class of x that recovers nearest to x, the smaller at a tie.
    #[tactic(auto, using(crate::proofs::RoundingSteps::round_steps))]
    pub(crate) fn round(self, x: u32) -> u32
        requires { x < self.q }
        ensures { result ≡ round_value self.q self.p self.step x }
    {
        let last = self.last_at_most(x);
        let over = (last + x) % self.step;
        if last < over {
            // The class has no value that recovers to x or below, and over is its first.
            return over;
        }
        let low = last - over;
        let high = low + self.step;
        if high > self.p {
            return low;
        }
        let above = self.recover(high) - x;
        let below = x - self.recover(low);
        if above < below { high } else { low }
    }

    /// The largest y with floor(y q / p) at most x, which is floor(((x + 1) p - 1) / q).
    #[tactic(auto, using(crate::specs::LawProofs::Floors::last_steps))]
    fn last_at_most(self, x: u32) -> u32
        requires { x < self.q }
        ensures at_most { result * self.q / self.p ≤ x }
        ensures next_above { x < (result + 1) * self.q / self.p }
    {
        // (x + 1) p does not fit 32 bits, but how far it falls short of (whole + 1) q does.
        let gap = self.q / self.p;
        let whole = x / gap;
        let short = whole * (self.q % self.p) + (self.q - (x % gap + 1) * self.p);
        whole - short / self.q
    }
}
