// Little-endian 32-bit words in a slice of bytes.
#![tactic(auto)]

ghost use Rattle.std.specs.Prelude.{◌≡◌};
ghost use Rattle.words.specs.Words.{word_at, PairTo};

// The word at an index, counted in words, or 0 where the bytes do not hold it whole.
pub fn word_at(bytes: &[u8], index: usize) -> u32
    ensures { result ≡ word_at bytes.now index }
{
    let (words, _) = bytes.as_chunks::<4>();
    match words.get(index) {
        Some(word) => u32::from_le_bytes(*word),
        None => 0,
    }
}

// The word before an index and above it, from bit 32 on, the one at the index, or 0 where the bytes do not hold both. By the second of
// them, so that one test of where it is does for a caller.
pub fn pair_to(bytes: &[u8], index: usize) -> u64
    ensures { PairTo bytes.now index result }
{
    let (words, _) = bytes.as_chunks::<4>();
    if index == 0 || words.len() <= index {
        return 0;
    }
    let first = u32::from_le_bytes(words[index - 1]);
    let second = u32::from_le_bytes(words[index]);
    u64::from(first) + u64::from(second) * 0x100000000
}
