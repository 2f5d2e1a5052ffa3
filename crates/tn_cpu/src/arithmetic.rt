ghost use Rattle.std.specs.Prelude.{◌≡◌};
ghost use Rattle.tn_cpu.specs.States.{filled};
ghost use Rattle.tn_cpu.specs.Turns.{ran, with_two, with_three, joins};
ghost use Rattle.tn_cpu.specs.Effects.{unchecked};
ghost use Rattle.tn_cpu.specs.Inner.Results.{answer_of, low_of, high_of};

use crate::outcomes::{Outcome, Why};
use crate::processors::Cpu;
use crate::queues::words_above;
use crate::registers::Reg;
use crate::turns::Turn;
use tn_alu::Answer;
use tn_mem::Space;

/// An operation whose result takes the place of Areg and Breg.
#[derive(Clone, Copy)]
pub(crate) enum Pair {
    /// `bsub`: the address Areg bytes above Breg.
    Bsub,
    /// `diff`: Breg less Areg.
    Diff,
    /// `add`: Breg and Areg added, checked.
    Add,
    /// `prod`: Breg times Areg.
    Prod,
    /// `gt`: 1 where Breg is above Areg, signed, else 0.
    Gt,
    /// `wsub`: the address Breg words above Areg.
    Wsub,
    /// `sub`: Breg less Areg, checked.
    Sub,
    /// `rem`: the remainder of Breg by Areg, with the sign of Breg.
    Rem,
    /// `div`: the quotient of Breg by Areg, towards zero.
    Div,
    /// `xor`: the exclusive or of Breg and Areg.
    Xor,
    /// `shr`: Breg shifted right by Areg.
    Shr,
    /// `shl`: Breg shifted left by Areg.
    Shl,
    /// `and`: the bits that Breg and Areg share.
    And,
    /// `or`: the bits of Breg and Areg.
    Or,
    /// `sum`: Breg and Areg added.
    Sum,
    /// `mul`: Breg times Areg, checked.
    Mul,
}

/// An operation on all three registers whose result takes the place of Areg and Breg.
#[derive(Clone, Copy)]
pub(crate) enum Long {
    /// `lmul`: Areg times Breg with Creg added, in two words.
    Lmul,
    /// `lsum`: Breg, Areg and the lowest bit of Creg added, and the carry.
    Lsum,
    /// `ldiff`: Breg less Areg less the lowest bit of Creg, and the borrow.
    Ldiff,
}

/// The operations whose results take the place of the upper registers.
impl<M: Space> Cpu<M> {
    /// Executes an operation whose result takes the place of Areg and Breg.
    pub(crate) fn join_pair(&mut self, pair: Pair, turn: Turn) -> Outcome
        ensures { with_two self.old.a self.old.b self.old (λ a b. joins (answer_of pair a b) turn.following self.old)
            ≡ record { state = self.new; outcome = result } }
    {
        match (self.registers.a, self.registers.b) {
            (Reg::Word(a), Reg::Word(b)) => self.join(answer_of(pair, a, b), turn.following),
            _ => self.stop(Why::Undefined),
        }
    }

    /// Executes an operation on all three registers.
    pub(crate) fn fill_long(&mut self, long: Long, turn: Turn) -> Outcome
        ensures { with_three self.old.a self.old.b self.old.c self.old
            (λ a b c. ran turn.following (filled (low_of long a b c) (high_of long a b c) self.old))
            ≡ record { state = self.new; outcome = result } }
    {
        match (self.registers.a, self.registers.b, self.registers.c) {
            (Reg::Word(a), Reg::Word(b), Reg::Word(c)) => self.fill(
                words_of(long, a, b, c),
                turn.following,
            ),
            _ => self.stop(Why::Undefined),
        }
    }

    /// Ends an instruction that leaves two words.
    fn fill(&mut self, words: (u32, u32), iptr: u32) -> Outcome
        ensures { ran iptr (filled words.0 words.1 self.old) ≡ record { state = self.new; outcome = result } }
    {
        self.registers.a = Reg::Word(words.0);
        self.registers.b = Reg::Word(words.1);
        self.registers.c = Reg::Undefined;
        self.go_on(iptr)
    }
}

/// The result of an operation on Areg and Breg.
fn answer_of(pair: Pair, a: u32, b: u32) -> Answer
    ensures { result ≡ answer_of pair a b }
{
    match pair {
        Pair::Bsub => unchecked(a.wrapping_add(b)),
        Pair::Diff => unchecked(b.wrapping_sub(a)),
        Pair::Add => tn_alu::add(b, a),
        Pair::Prod => unchecked(b.wrapping_mul(a)),
        Pair::Gt => unchecked(u32::from(b.cast_signed() > a.cast_signed())),
        Pair::Wsub => unchecked(words_above(a, b)),
        Pair::Sub => tn_alu::sub(b, a),
        Pair::Rem => tn_alu::rem(b, a),
        Pair::Div => tn_alu::div(b, a),
        Pair::Xor => unchecked(b ^ a),
        Pair::Shr => tn_alu::shr(b, a),
        Pair::Shl => tn_alu::shl(b, a),
        Pair::And => unchecked(b & a),
        Pair::Or => unchecked(b | a),
        Pair::Sum => unchecked(b.wrapping_add(a)),
        Pair::Mul => tn_alu::mul(b, a),
    }
}

/// The words that an operation on all three registers leaves in Areg and in Breg.
fn words_of(long: Long, a: u32, b: u32, c: u32) -> (u32, u32)
    ensures low { result.0 ≡ low_of long a b c }
    ensures high { result.1 ≡ high_of long a b c }
{
    match long {
        Long::Lmul => tn_alu::lmul(a, b, c),
        Long::Lsum => tn_alu::lsum(a, b, c),
        Long::Ldiff => tn_alu::ldiff(a, b, c),
    }
}

/// The word of a result that sets no Error.
fn unchecked(word: u32) -> Answer
    ensures { result ≡ unchecked word }
{
    Answer {
        value: Some(word),
        error: false,
    }
}
