ghost use Rattle.std.specs.Prelude.{◌≡◌, ◌+◌, ◌*◌};
ghost use Rattle.tn_alu.specs.Longs.{high_word, long_product, long_sum, borrow_of, low_difference};
ghost use Rattle.tn_alu.specs.Longs.{low_word};

/// The unsigned product of registers A and B with register C added, `lmul`: its low word and its
/// high word.
pub fn lmul(a: u32, b: u32, c: u32) -> (u32, u32)
    ensures low { result.0 ≡ low_word (long_product a b c) }
    ensures high { result.1 ≡ high_word (long_product a b c) }
{
    words(u64::from(a) * u64::from(b) + u64::from(c))
}

/// The unsigned sum of registers B and A and the lowest bit of register C, `lsum`: its low word
/// and the carry, 0 or 1.
pub fn lsum(a: u32, b: u32, c: u32) -> (u32, u32)
    ensures low { result.0 ≡ low_word (long_sum a b c) }
    ensures carry { result.1 ≡ high_word (long_sum a b c) }
{
    words(u64::from(b) + u64::from(a) + u64::from(c & 1))
}

/// Register B less register A less the lowest bit of register C, unsigned, `ldiff`: the low word
/// and the borrow, 1 where what is taken away is more than B, else 0.
pub fn ldiff(a: u32, b: u32, c: u32) -> (u32, u32)
    ensures low { result.0 ≡ low_difference a b c }
    ensures borrow { result.1 ≡ borrow_of a b c }
{
    let taken = u64::from(a) + u64::from(c & 1);
    let borrow = u64::from(taken > u64::from(b));
    let (low, _) = words(u64::from(b) + (borrow << 32) - taken);
    (low, borrow as u32)
}

/// The low word and the high word of a number of two words.
fn words(number: u64) -> (u32, u32)
    ensures low { result.0 ≡ low_word number }
    ensures high { result.1 ≡ high_word number }
{
    ((number % (1 << 32)) as u32, (number >> 32) as u32)
}
