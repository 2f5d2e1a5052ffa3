ghost use Rattle.std.specs.Prelude.{◌≡◌};
ghost use Rattle.tn_isa.specs.Mnemonics.{mnemonic_named};
ghost use Rattle.tn_modtext.specs.Tokens.{version_at, kind_at, function_of, operation_of};

use tn_isa::{Fun, Mnemonic, Op, mnemonic_spelled};
use tn_module::Kind;
use tn_text::{Cause, FaultCode};

/// Looks at the version of a text, which is 1.
pub(crate) fn version_at(token: &[u8]) -> Result<(), Cause>
    ensures { result ≡ version_at token.now }
{
    if token == b"1".as_slice() {
        Ok(())
    } else {
        Err(Cause::bare(FaultCode::BadLine))
    }
}

/// What an import is of.
pub(crate) fn kind_at(token: &[u8]) -> Result<Kind, Cause>
    ensures { result ≡ kind_at token.now }
{
    if token == b"code".as_slice() {
        Ok(Kind::Code)
    } else if token == b"data".as_slice() {
        Ok(Kind::Cell)
    } else {
        Err(Cause::bare(FaultCode::BadLine))
    }
}

/// The function that a token names.
pub(crate) fn function_at(token: &[u8]) -> Result<Fun, Cause>
    ensures { result ≡ function_of (mnemonic_named token.now) }
{
    match mnemonic_spelled(token) {
        Some(Mnemonic::Direct(fun)) => Ok(fun),
        Some(Mnemonic::Plain(_)) => Err(Cause::bare(FaultCode::BadLine)),
        None => Err(Cause::bare(FaultCode::BadLine)),
    }
}

/// The operation that a token names.
pub(crate) fn operation_at(token: &[u8]) -> Result<Op, Cause>
    ensures { result ≡ operation_of (mnemonic_named token.now) }
{
    match mnemonic_spelled(token) {
        Some(Mnemonic::Plain(op)) => Ok(op),
        Some(Mnemonic::Direct(_)) => Err(Cause::bare(FaultCode::BadLine)),
        None => Err(Cause::bare(FaultCode::BadLine)),
    }
}
