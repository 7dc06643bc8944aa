#![tactic(auto)]
// Form R: scalars as digits in radix 2^w.
pub mod recode;
