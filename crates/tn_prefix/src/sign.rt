ghost use Rattle.std.specs.Prelude.{◌≡◌, negsuc, ◌^◌, ◌<◌};
ghost use Rattle.tn_prefix.specs.Coding.{coding_length};
ghost use Rattle.tn_prefix.specs.Sign.{operand_value, magnitude};

/// An operand by its sign, as the rule of coding takes it.
pub enum SignedOperand {
    /// An operand that is not negative.
    Natural(u32),
    /// The complement of a negative operand.
    Complement(u32),
}

impl SignedOperand {
    /// The operand `e`. The number that stands for it is below 2^31.
    pub fn new(e: i32) -> Self
        ensures value { operand_value result ≡ e }
        ensures bound { magnitude result < 2 ^ 31 }
    {
        if e < 0 {
            SignedOperand::Complement((!e).cast_unsigned())
        } else {
            SignedOperand::Natural(e.cast_unsigned())
        }
    }

    /// How many bytes its coding has.
    #[tactic(auto, using(crate::proofs::Lengths::by_sign))]
    pub fn length(self) -> u8
        ensures { result ≡ coding_length (operand_value self) }
    {
        match self {
            SignedOperand::Natural(0..16) => 1,
            SignedOperand::Natural(n) | SignedOperand::Complement(n) => length_with_prefix(n),
        }
    }
}

/// How many bytes the coding of an operand has that needs a prefix: of a negative operand whose
/// complement is `n`, or of `n` itself.
#[tactic(auto, using(std::proofs::lemmas::Bool::Decides::nat_tests), unfolding(crate::specs::Coding::coding_length))]
fn length_with_prefix(n: u32) -> u8
    ensures { result ≡ coding_length (negsuc n) }
{
    match n {
        0..0x100 => 2,
        0x100..0x1000 => 3,
        0x1000..0x1_0000 => 4,
        0x1_0000..0x10_0000 => 5,
        0x10_0000..0x100_0000 => 6,
        0x100_0000..0x1000_0000 => 7,
        _ => 8,
    }
}
