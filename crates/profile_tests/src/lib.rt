//! Tests of the profiles. The values are those of reference/values.py, a second implementation.

#![tactic(auto)]

#[cfg(test)]
mod arithmetic;
#[cfg(test)]
mod refusals;
#[cfg(test)]
mod secrets;
#[cfg(test)]
mod values;
