//! How far rounding moves the residues of a profile.

ghost use Rattle.std.specs.Prelude.{◌≡◌, ◌^◌, ◌<◌, Ok, if◌then◌else◌};
ghost use Rattle.survey.specs.Surveys.{RoundingMeans, distance, tie, widened};

use profile::Profile;
use ring::Fault;

/// What was found of all residues.
#[derive(Clone, Copy, PartialEq, Eq, Debug)]
pub struct RoundingSurvey {
    /// The least distance: what a residue's rounded value recovers to, less the residue.
    pub least: i32,
    /// The largest distance.
    pub largest: i32,
    /// How many residues are ties: each lies midway between what its rounded value and the next
    /// value of its class recover to, so that it could be rounded to either.
    pub ties: u32,
}

impl RoundingSurvey {
    /// The survey with one more residue.
    fn widen(self, one: Rounded) -> Self
        requires { self.ties < 2 ^ 23 }
        ensures { result ≡ widened self one.distance one.tie }
    {
        RoundingSurvey {
            least: self.least.min(one.distance),
            largest: self.largest.max(one.distance),
            ties: self.ties + u32::from(one.tie),
        }
    }
}

/// What rounding does to one residue.
#[derive(Clone, Copy)]
struct Rounded {
    distance: i32,
    tie: bool,
}

impl Rounded {
    /// How far the residue x is moved, and whether the next value is as near.
    fn of<P: Profile>(x: u32) -> Result<Self, Fault>
        requires { x < P.NUMBERS.q }
        ensures { let f = P.functions in
            result ≡ Ok (record { distance = distance f x; tie = tie P.NUMBERS f x }) }
    {
        let k = P::NUMBERS;
        let y = P::round(x)?;
        let t = P::recover(y)?;
        let tie = y + k.step <= k.p && t + P::recover(y + k.step)? == 2 * x;
        Ok(Rounded {
            distance: t as i32 - x as i32,
            tie,
        })
    }
}

impl From<Rounded> for RoundingSurvey {
    /// The survey of one residue.
    fn from(one: Rounded) -> Self
        ensures { let d = one.distance in
            result ≡ record { least = d; largest = d; ties = if one.tie then 1 else 0 } }
    {
        RoundingSurvey {
            least: one.distance,
            largest: one.distance,
            ties: u32::from(one.tie),
        }
    }
}

/// Rounds and recovers every residue of a profile, from 0 to q - 1. It is never refused.
pub fn survey_rounding<P: Profile>() -> Result<RoundingSurvey, Fault>
    ensures { RoundingMeans P.NUMBERS P.functions result }
{
    let mut survey = RoundingSurvey::from(Rounded::of::<P>(0)?);
    for x in 1..P::NUMBERS.q {
        survey = survey.widen(Rounded::of::<P>(x)?);
    }
    Ok(survey)
}
