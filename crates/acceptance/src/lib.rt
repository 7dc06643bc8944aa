#![tactic(auto)]
// The conditions of acceptance as a client meets them: functions over the public entries alone, with 01's own words (specs/) as their contracts.
pub mod bytes;
pub mod conditions;
pub mod looked_at;
pub mod r;
