#![tactic(auto)]
// Words of eight bytes, the lowest byte first: bytes read as words, and words written as bytes.
ghost use Rattle.words.specs.Words.{WordsRead, WordsWritten};

use rules::{Refusal, Verdict};

// One word for each eight bytes. A source of any other length is refused, and nothing is written.
pub fn read_le_u64_into(src: &[u8], dst: &mut [u64]) -> Verdict
    ensures { WordsRead src.now dst.old dst.new result }
{
    let (words, rest) = src.as_chunks::<8>();
    if rest.len() != 0 || words.len() != dst.len() {
        return Err(Refusal::WrongLength);
    }
    // By the index: what `iter_mut` with `zip` leaves in a slice is in no contract.
    for (k, bytes) in words.iter().enumerate() {
        dst[k] = u64::from_le_bytes(*bytes);
    }
    Ok(())
}

// Eight bytes for each word. A destination of any other length is refused, and nothing is written.
pub fn write_le_u64_into(src: &[u64], dst: &mut [u8]) -> Verdict
    ensures { WordsWritten src.now dst.old dst.new result }
{
    if dst.len() % 8 != 0 || dst.len() / 8 != src.len() {
        return Err(Refusal::WrongLength);
    }
    // By ranges: `as_chunks_mut` says nothing of what the slice holds in the end.
    for (k, word) in src.iter().enumerate() {
        dst[8 * k..8 * k + 8].copy_from_slice(&word.to_le_bytes());
    }
    Ok(())
}
