ghost use Rattle.std.specs.Prelude.{◌≡◌, ◌≢◌, All, Contains, IfSome, IfNone, find, ◌==◌};
ghost use Rattle.tn_isa.specs.Operations.{operations, operation_code, operation_with};

/// An operation, which the operand of the function `opr` names by its code. They stand in the
/// order of their codes in the guide's table.
#[derive(Clone, Copy, PartialEq, Eq)]
pub enum Op {
    Rev,
    Lb,
    Bsub,
    Endp,
    Diff,
    Add,
    Gcall,
    In,
    Prod,
    Gt,
    Wsub,
    Out,
    Sub,
    Startp,
    Seterr,
    Csub0,
    Stopp,
    Sthf,
    Ldpi,
    Stlf,
    Xdble,
    Rem,
    Ret,
    Lend,
    Ldtimer,
    Testerr,
    Div,
    Lmul,
    Not,
    Xor,
    Bcnt,
    Lsum,
    Runp,
    Sb,
    Gajw,
    Wcnt,
    Shr,
    Shl,
    Mint,
    And,
    Move,
    Or,
    Ldiff,
    Sum,
    Mul,
    Sttimer,
    Clrhalterr,
    Sethalterr,
    Dup,
}

/// Each operation, in the order of the codes.
const OPERATIONS: [Op; 49] = [
    Op::Rev,
    Op::Lb,
    Op::Bsub,
    Op::Endp,
    Op::Diff,
    Op::Add,
    Op::Gcall,
    Op::In,
    Op::Prod,
    Op::Gt,
    Op::Wsub,
    Op::Out,
    Op::Sub,
    Op::Startp,
    Op::Seterr,
    Op::Csub0,
    Op::Stopp,
    Op::Sthf,
    Op::Ldpi,
    Op::Stlf,
    Op::Xdble,
    Op::Rem,
    Op::Ret,
    Op::Lend,
    Op::Ldtimer,
    Op::Testerr,
    Op::Div,
    Op::Lmul,
    Op::Not,
    Op::Xor,
    Op::Bcnt,
    Op::Lsum,
    Op::Runp,
    Op::Sb,
    Op::Gajw,
    Op::Wcnt,
    Op::Shr,
    Op::Shl,
    Op::Mint,
    Op::And,
    Op::Move,
    Op::Or,
    Op::Ldiff,
    Op::Sum,
    Op::Mul,
    Op::Sttimer,
    Op::Clrhalterr,
    Op::Sethalterr,
    Op::Dup,
];

/// The operation with this code. `None` exactly for a code that the guide's table does not have.
#[tactic(auto, unfolding(crate::specs::Operations::operation_with))]
pub fn op_of(code: u32) -> Option<Op>
    ensures found { IfSome result (λ op. operation_code op ≡ code) }
    ensures none { IfNone result (All (λ op. operation_code op ≢ code) operations) }
    ensures value { result ≡ operation_with code }
{
    first_with(&OPERATIONS, code)
}

/// The first operation of a table that has the code.
fn first_with(table: &[Op], code: u32) -> Option<Op>
    ensures { result ≡ find (λ op. operation_code op == code) table.now }
{
    table.iter().copied().find(|op| op_code(*op) == code)
}

/// The code of an operation, which is the operand of its `opr`.
pub fn op_code(op: Op) -> u32
    ensures { result ≡ operation_code op }
{
    match op {
        Op::Rev => 0x00,
        Op::Lb => 0x01,
        Op::Bsub => 0x02,
        Op::Endp => 0x03,
        Op::Diff => 0x04,
        Op::Add => 0x05,
        Op::Gcall => 0x06,
        Op::In => 0x07,
        Op::Prod => 0x08,
        Op::Gt => 0x09,
        Op::Wsub => 0x0A,
        Op::Out => 0x0B,
        Op::Sub => 0x0C,
        Op::Startp => 0x0D,
        Op::Seterr => 0x10,
        Op::Csub0 => 0x13,
        Op::Stopp => 0x15,
        Op::Sthf => 0x18,
        Op::Ldpi => 0x1B,
        Op::Stlf => 0x1C,
        Op::Xdble => 0x1D,
        Op::Rem => 0x1F,
        Op::Ret => 0x20,
        Op::Lend => 0x21,
        Op::Ldtimer => 0x22,
        Op::Testerr => 0x29,
        Op::Div => 0x2C,
        Op::Lmul => 0x31,
        Op::Not => 0x32,
        Op::Xor => 0x33,
        Op::Bcnt => 0x34,
        Op::Lsum => 0x37,
        Op::Runp => 0x39,
        Op::Sb => 0x3B,
        Op::Gajw => 0x3C,
        Op::Wcnt => 0x3F,
        Op::Shr => 0x40,
        Op::Shl => 0x41,
        Op::Mint => 0x42,
        Op::And => 0x46,
        Op::Move => 0x4A,
        Op::Or => 0x4B,
        Op::Ldiff => 0x4F,
        Op::Sum => 0x52,
        Op::Mul => 0x53,
        Op::Sttimer => 0x54,
        Op::Clrhalterr => 0x57,
        Op::Sethalterr => 0x58,
        Op::Dup => 0x5A,
    }
}
