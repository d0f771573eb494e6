// FNV-1a, 64 bits: of each element the bytes from the least significant one.
ghost use Rattle.std.specs.Prelude.{◌≡◌, map};
ghost use Rattle.records.specs.Hash.{hashed_bytes, bytes_of, hash_of};

use crate::Element;

const OFFSET_BASIS: u64 = 0xcbf2_9ce4_8422_2325;

const PRIME: u64 = 0x100_0000_01b3;

// Byte by byte as the definition takes them, so that the width may be any count.
fn hash_bytes(hash: u64, word: u64, count: u32) -> u64
    ensures { result ≡ hashed_bytes hash (bytes_of count word) }
{
    let mut now = hash;
    let mut rest = word;
    for _ in 0..count {
        now = (now ^ rest % 256).wrapping_mul(PRIME);
        rest /= 256;
    }
    now
}

pub fn hash<T: Element>(list: &[T]) -> u64
    ensures { result ≡ hash_of T.BYTES (map T.word_of list.now) }
{
    let mut hash = OFFSET_BASIS;
    for x in list {
        hash = hash_bytes(hash, x.word(), T::BYTES);
    }
    hash
}
