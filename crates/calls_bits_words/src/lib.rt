#![tactic(auto)]
// The calls on a scalar's bits, each bit a byte, and on words of eight bytes.
pub mod as_bits;
pub mod as_words;
