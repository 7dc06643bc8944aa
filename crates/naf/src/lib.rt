#![tactic(auto)]
// Form N: scalars as non-adjacent digits.
pub mod recode;
