// Single bits of a word, numbered from the lowest.
ghost use Rattle.std.specs.Prelude.{◌≡◌, ◌<◌};
ghost use Rattle.bench.specs.Word.{put_bit, test_bit};

// Whether a bit is set; past the highest none is.
pub fn test_bit(word: u64, at: u16) -> bool
    ensures { result ≡ test_bit word at }
{
    at < 64 && (word >> at) & 1 == 1
}

pub(crate) fn put_bit(word: u64, at: u16, bit: bool) -> u64
    requires { at < 64 }
    ensures { result ≡ put_bit word at bit }
{
    if bit {
        word | (1u64 << at)
    } else {
        word & !(1u64 << at)
    }
}
