ghost use Rattle.std.specs.Fmt.{decimal};
ghost use Rattle.tn_text.specs.Puts.{Taken, Puts};
ghost use Rattle.tn_text.specs.WordTexts.{spaced};

/// A sink did not take all of a piece.
#[derive(Clone, Copy)]
pub struct PutRefused;

/// A sink that takes the bytes of a printed text in order.
///
/// A value of a sink goes on from an earlier one where the calls between them have kept what the
/// sink's kind promises to keep. Whatever is generic over a sink ensures that the value after the
/// call goes on from the one before.
pub trait Put {
    /// What contracts see of a sink: the bytes taken, where it tells them, and how often it
    /// refused.
    ghost taken: { Self → Taken };

    /// The second value goes on from the first.
    ghost goes_on: { Self → Self → Type 0 };

    /// Puts a piece. A refusal leaves a prefix of it put, and comes only where the count of
    /// refusals rose in the call, or stands at its greatest value.
    fn put(&mut self, bytes: &[u8]) -> Result<(), PutRefused>
        ensures puts { Puts bytes.now result (taken self.old) (taken self.new) }
        ensures goes_on { goes_on self.old self.new };

    ghost stays: { (sink : Self) → goes_on sink sink };

    ghost joined: { (first second third : Self) → goes_on first second → goes_on second third → goes_on first third };
}

/// Puts a number in decimal digits, without leading zeros.
pub fn put_decimal<P: Put>(number: u64, out: &mut P) -> Result<(), PutRefused>
    ensures puts { Puts (decimal number) result (P.taken out.old) (P.taken out.new) }
    ensures goes_on { P.goes_on out.old out.new }
{
    if number < 10 {
        return out.put(&[b'0' + number as u8]);
    }
    put_decimal(number / 10, out)?;
    out.put(&[b'0' + (number % 10) as u8])
}

/// Puts a blank and a word.
#[tactic(auto, unfolding(crate::specs::WordTexts::spaced))]
pub fn put_spaced<P: Put>(word: &[u8], out: &mut P) -> Result<(), PutRefused>
    ensures puts { Puts (spaced word.now) result (P.taken out.old) (P.taken out.new) }
    ensures goes_on { P.goes_on out.old out.new }
{
    out.put(b" ")?;
    out.put(word)
}

/// Puts a blank and a number in decimal digits.
#[tactic(auto, unfolding(crate::specs::WordTexts::spaced))]
pub fn put_spaced_decimal<P: Put>(number: u64, out: &mut P) -> Result<(), PutRefused>
    ensures puts { Puts (spaced (decimal number)) result (P.taken out.old) (P.taken out.new) }
    ensures goes_on { P.goes_on out.old out.new }
{
    out.put(b" ")?;
    put_decimal(number, out)
}
