ghost use Rattle.std.specs.Prelude.{◌≡◌};
ghost use Rattle.tn_alu.specs.Shifts.{shifted_left, shifted_right};

use crate::answers::Answer;

/// Register B shifted left by register A, with zeros from the right, `shl`. The result is
/// undefined where A is 32 or more, unsigned; Error is not set.
pub fn shl(b: u32, a: u32) -> Answer
    ensures { result ≡ shifted_left b a }
{
    Answer {
        value: b.checked_shl(a),
        error: false,
    }
}

/// Register B shifted right by register A, with zeros from the left, `shr`. The result is
/// undefined where A is 32 or more, unsigned; Error is not set.
pub fn shr(b: u32, a: u32) -> Answer
    ensures { result ≡ shifted_right b a }
{
    Answer {
        value: b.checked_shr(a),
        error: false,
    }
}
