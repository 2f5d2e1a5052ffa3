ghost use Rattle.std.specs.Prelude.{◌≡◌, ◌≢◌, All, Contains, IfSome, IfNone, find};
ghost use Rattle.std.specs.Str.{bytes_eq};
ghost use Rattle.tn_isa.specs.Mnemonics.{mnemonics, name_of, mnemonic_named};

use crate::functions::Fun;
use crate::operations::Op;

/// An instruction as a source names it.
#[derive(Clone, Copy)]
pub enum Mnemonic {
    /// A function with an operand of its own. A source names each of them but `pfix`, `nfix` and
    /// `opr`, whose bytes the coding of an operand makes.
    Direct(Fun),
    /// An operation, which stands alone.
    Plain(Op),
}

/// Each instruction that a source may name, in the order of the guide's table.
const MNEMONICS: [Mnemonic; 62] = [
    Mnemonic::Direct(Fun::J),
    Mnemonic::Direct(Fun::Ldlp),
    Mnemonic::Direct(Fun::Ldnl),
    Mnemonic::Direct(Fun::Ldc),
    Mnemonic::Direct(Fun::Ldnlp),
    Mnemonic::Direct(Fun::Ldl),
    Mnemonic::Direct(Fun::Adc),
    Mnemonic::Direct(Fun::Call),
    Mnemonic::Direct(Fun::Cj),
    Mnemonic::Direct(Fun::Ajw),
    Mnemonic::Direct(Fun::Eqc),
    Mnemonic::Direct(Fun::Stl),
    Mnemonic::Direct(Fun::Stnl),
    Mnemonic::Plain(Op::Rev),
    Mnemonic::Plain(Op::Lb),
    Mnemonic::Plain(Op::Bsub),
    Mnemonic::Plain(Op::Endp),
    Mnemonic::Plain(Op::Diff),
    Mnemonic::Plain(Op::Add),
    Mnemonic::Plain(Op::Gcall),
    Mnemonic::Plain(Op::In),
    Mnemonic::Plain(Op::Prod),
    Mnemonic::Plain(Op::Gt),
    Mnemonic::Plain(Op::Wsub),
    Mnemonic::Plain(Op::Out),
    Mnemonic::Plain(Op::Sub),
    Mnemonic::Plain(Op::Startp),
    Mnemonic::Plain(Op::Seterr),
    Mnemonic::Plain(Op::Csub0),
    Mnemonic::Plain(Op::Stopp),
    Mnemonic::Plain(Op::Sthf),
    Mnemonic::Plain(Op::Ldpi),
    Mnemonic::Plain(Op::Stlf),
    Mnemonic::Plain(Op::Xdble),
    Mnemonic::Plain(Op::Rem),
    Mnemonic::Plain(Op::Ret),
    Mnemonic::Plain(Op::Lend),
    Mnemonic::Plain(Op::Ldtimer),
    Mnemonic::Plain(Op::Testerr),
    Mnemonic::Plain(Op::Div),
    Mnemonic::Plain(Op::Lmul),
    Mnemonic::Plain(Op::Not),
    Mnemonic::Plain(Op::Xor),
    Mnemonic::Plain(Op::Bcnt),
    Mnemonic::Plain(Op::Lsum),
    Mnemonic::Plain(Op::Runp),
    Mnemonic::Plain(Op::Sb),
    Mnemonic::Plain(Op::Gajw),
    Mnemonic::Plain(Op::Wcnt),
    Mnemonic::Plain(Op::Shr),
    Mnemonic::Plain(Op::Shl),
    Mnemonic::Plain(Op::Mint),
    Mnemonic::Plain(Op::And),
    Mnemonic::Plain(Op::Move),
    Mnemonic::Plain(Op::Or),
    Mnemonic::Plain(Op::Ldiff),
    Mnemonic::Plain(Op::Sum),
    Mnemonic::Plain(Op::Mul),
    Mnemonic::Plain(Op::Sttimer),
    Mnemonic::Plain(Op::Clrhalterr),
    Mnemonic::Plain(Op::Sethalterr),
    Mnemonic::Plain(Op::Dup),
];

/// The instruction that a word of a source names. `None` exactly where the word is no mnemonic;
/// `pfix`, `nfix` and `opr` are none.
pub fn mnemonic_of(word: &str) -> Option<Mnemonic>
    ensures found { IfSome result (λ m. Contains mnemonics m × (name_of m ≡ word.now)) }
    ensures none { IfNone result (All (λ m. name_of m ≢ word.now) mnemonics) }
    ensures value { result ≡ mnemonic_named word.now }
{
    mnemonic_spelled(word.as_bytes())
}

/// The instruction that the bytes of a word name, as `mnemonic_of` finds it.
#[tactic(auto, unfolding(crate::specs::Mnemonics::mnemonic_named))]
pub fn mnemonic_spelled(word: &[u8]) -> Option<Mnemonic>
    ensures found { IfSome result (λ m. Contains mnemonics m × (name_of m ≡ word.now)) }
    ensures none { IfNone result (All (λ m. name_of m ≢ word.now) mnemonics) }
    ensures value { result ≡ mnemonic_named word.now }
{
    first_named(&MNEMONICS, word)
}

/// The first instruction of a table that the word names.
fn first_named(table: &[Mnemonic], word: &[u8]) -> Option<Mnemonic>
    ensures { result ≡ find (λ m. bytes_eq (name_of m) word.now) table.now }
{
    table
        .iter()
        .copied()
        .find(|m| mnemonic_name(*m).as_bytes() == word)
}

/// The name of an instruction, as the guide's table spells it.
pub fn mnemonic_name(m: Mnemonic) -> &'static str
    ensures { result.now ≡ name_of m }
{
    match m {
        Mnemonic::Direct(Fun::J) => "j",
        Mnemonic::Direct(Fun::Ldlp) => "ldlp",
        Mnemonic::Direct(Fun::Pfix) => "pfix",
        Mnemonic::Direct(Fun::Ldnl) => "ldnl",
        Mnemonic::Direct(Fun::Ldc) => "ldc",
        Mnemonic::Direct(Fun::Ldnlp) => "ldnlp",
        Mnemonic::Direct(Fun::Nfix) => "nfix",
        Mnemonic::Direct(Fun::Ldl) => "ldl",
        Mnemonic::Direct(Fun::Adc) => "adc",
        Mnemonic::Direct(Fun::Call) => "call",
        Mnemonic::Direct(Fun::Cj) => "cj",
        Mnemonic::Direct(Fun::Ajw) => "ajw",
        Mnemonic::Direct(Fun::Eqc) => "eqc",
        Mnemonic::Direct(Fun::Stl) => "stl",
        Mnemonic::Direct(Fun::Stnl) => "stnl",
        Mnemonic::Direct(Fun::Opr) => "opr",
        Mnemonic::Plain(Op::Rev) => "rev",
        Mnemonic::Plain(Op::Lb) => "lb",
        Mnemonic::Plain(Op::Bsub) => "bsub",
        Mnemonic::Plain(Op::Endp) => "endp",
        Mnemonic::Plain(Op::Diff) => "diff",
        Mnemonic::Plain(Op::Add) => "add",
        Mnemonic::Plain(Op::Gcall) => "gcall",
        Mnemonic::Plain(Op::In) => "in",
        Mnemonic::Plain(Op::Prod) => "prod",
        Mnemonic::Plain(Op::Gt) => "gt",
        Mnemonic::Plain(Op::Wsub) => "wsub",
        Mnemonic::Plain(Op::Out) => "out",
        Mnemonic::Plain(Op::Sub) => "sub",
        Mnemonic::Plain(Op::Startp) => "startp",
        Mnemonic::Plain(Op::Seterr) => "seterr",
        Mnemonic::Plain(Op::Csub0) => "csub0",
        Mnemonic::Plain(Op::Stopp) => "stopp",
        Mnemonic::Plain(Op::Sthf) => "sthf",
        Mnemonic::Plain(Op::Ldpi) => "ldpi",
        Mnemonic::Plain(Op::Stlf) => "stlf",
        Mnemonic::Plain(Op::Xdble) => "xdble",
        Mnemonic::Plain(Op::Rem) => "rem",
        Mnemonic::Plain(Op::Ret) => "ret",
        Mnemonic::Plain(Op::Lend) => "lend",
        Mnemonic::Plain(Op::Ldtimer) => "ldtimer",
        Mnemonic::Plain(Op::Testerr) => "testerr",
        Mnemonic::Plain(Op::Div) => "div",
        Mnemonic::Plain(Op::Lmul) => "lmul",
        Mnemonic::Plain(Op::Not) => "not",
        Mnemonic::Plain(Op::Xor) => "xor",
        Mnemonic::Plain(Op::Bcnt) => "bcnt",
        Mnemonic::Plain(Op::Lsum) => "lsum",
        Mnemonic::Plain(Op::Runp) => "runp",
        Mnemonic::Plain(Op::Sb) => "sb",
        Mnemonic::Plain(Op::Gajw) => "gajw",
        Mnemonic::Plain(Op::Wcnt) => "wcnt",
        Mnemonic::Plain(Op::Shr) => "shr",
        Mnemonic::Plain(Op::Shl) => "shl",
        Mnemonic::Plain(Op::Mint) => "mint",
        Mnemonic::Plain(Op::And) => "and",
        Mnemonic::Plain(Op::Move) => "move",
        Mnemonic::Plain(Op::Or) => "or",
        Mnemonic::Plain(Op::Ldiff) => "ldiff",
        Mnemonic::Plain(Op::Sum) => "sum",
        Mnemonic::Plain(Op::Mul) => "mul",
        Mnemonic::Plain(Op::Sttimer) => "sttimer",
        Mnemonic::Plain(Op::Clrhalterr) => "clrhalterr",
        Mnemonic::Plain(Op::Sethalterr) => "sethalterr",
        Mnemonic::Plain(Op::Dup) => "dup",
    }
}
