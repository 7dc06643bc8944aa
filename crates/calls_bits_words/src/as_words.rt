// Words of eight bytes: the library takes lent slices here, and its verdict is handed on.
ghost use Rattle.calls.specs.Code.{code};
ghost use Rattle.calls_bits_words.specs.Words.{CardReadWords, CardWriteWords};

use rules::Verdict;
use words::{read_le_u64_into, write_le_u64_into};

pub fn read_words(src: &[u8], dst: &mut [u64]) -> Verdict
    ensures { CardReadWords src.now dst.old dst.new (code result) }
{
    read_le_u64_into(src, dst)
}

pub fn write_words(src: &[u64], dst: &mut [u8]) -> Verdict
    ensures { CardWriteWords src.now dst.old dst.new (code result) }
{
    write_le_u64_into(src, dst)
}
