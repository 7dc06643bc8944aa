#![tactic(auto)]
// What the calls of the C interface share: the code of a verdict, and the lengths of lent slices, which are tried before all else.
pub mod code;
pub mod length;
