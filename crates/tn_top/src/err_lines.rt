ghost use Rattle.std.specs.Prelude.{◌≡◌, ◌++◌, codes};
ghost use Rattle.std.specs.Fmt.{decimal};
ghost use Rattle.tn_text.specs.WordTexts.{spaced};
ghost use Rattle.tn_text.specs.Puts.{Puts};
ghost use Rattle.tn_top.specs.ErrLines.{Tells};
ghost use Rattle.tn_top.specs.Refusals.{usage_line, limit_line, not_enabled_line, refused_line, end_line};

use crate::refusals::Refusal;
use tn_io::Out;
use tn_list::Printed;
use tn_text::limits::Limit;
use tn_text::{FileName, Put, PutRefused, put_place, put_spaced_decimal};

/// Tells how the program is used. A failed write leaves a prefix of the line and changes nothing
/// else.
pub fn tell_usage<O: Out>(err: &mut O)
    ensures told { Tells usage_line (O.printed err.old) (O.printed err.new) }
    ensures goes_on { O.goes_on err.old err.new }
{
    let _ = err.write(b"usage: tn flat, one, asm, lib, build, list, tree, replay or grid\n");
}

/// Tells how a command ended, unless all was done. A failed write leaves a prefix of the line and
/// changes nothing else.
pub fn tell_end<O: Out>(ended: &Result<(), Refusal>, err: &mut O)
    ensures told { Tells (end_line ended.now) (O.printed err.old) (O.printed err.new) }
    ensures goes_on { O.goes_on err.old err.new }
{
    if let Err(refusal) = ended {
        tell(refusal, err);
    }
}

/// Tells why a command was refused.
fn tell<O: Out>(refusal: &Refusal, err: &mut O)
    ensures told { Tells (refused_line refusal.now) (O.printed err.old) (O.printed err.new) }
    ensures goes_on { O.goes_on err.old err.new }
{
    let mut printed = Printed { out: &mut *err };
    tell_to(refusal, &mut printed);
}

/// Tells why a command was refused, to a sink over the error output.
fn tell_to<O: Out>(refusal: &Refusal, printed: &mut Printed<'_, O>)
    ensures told { Tells (refused_line refusal.now) (O.printed printed.old.out.now) (O.printed printed.new.out.now) }
    ensures same_reference { printed.new.out.ghost_name ≡ printed.old.out.ghost_name }
    ensures goes_on { O.goes_on printed.old.out.now printed.new.out.now }
{
    let _ = put_refusal(refusal, printed);
}

/// Puts the line of a refusal.
#[tactic(auto, unfolding(crate::specs::Refusals::refused_line))]
fn put_refusal<P: Put>(refusal: &Refusal, out: &mut P) -> Result<(), PutRefused>
    ensures puts { Puts (refused_line refusal.now) result (P.taken out.old) (P.taken out.new) }
    ensures goes_on { P.goes_on out.old out.new }
{
    match refusal {
        Refusal::Fault(file, fault) => fault.write(file, out),
        Refusal::Limit(limit, count) => put_limit(*limit, *count, out),
        Refusal::Unread(file) => put_line(b"cannot read ", file.text().as_bytes(), out),
        Refusal::Unwritten(file) => put_line(b"cannot write ", file.text().as_bytes(), out),
        Refusal::Unprinted => out.put(b"cannot print\n"),
        Refusal::NotEnabled(file, line, tokens) => put_not_enabled(file, *line, tokens, out),
        Refusal::NoMemory => out.put(b"no memory\n"),
    }
}

/// Puts the line of a limit that is passed, by this count.
#[tactic(auto, unfolding(crate::specs::Refusals::limit_line))]
fn put_limit<P: Put>(limit: Limit, count: u64, out: &mut P) -> Result<(), PutRefused>
    ensures puts { Puts (limit_line limit count) result (P.taken out.old) (P.taken out.new) }
    ensures goes_on { P.goes_on out.old out.new }
{
    put_counted(limit.word().as_bytes(), count, out)
}

/// Puts the word of a limit and a count.
fn put_counted<P: Put>(word: &[u8], count: u64, out: &mut P) -> Result<(), PutRefused>
    ensures puts { Puts (codes "limit " ++ word.now ++ spaced (decimal count) ++ codes "\n") result (P.taken out.old) (P.taken out.new) }
    ensures goes_on { P.goes_on out.old out.new }
{
    out.put(b"limit ")?;
    out.put(word)?;
    put_spaced_decimal(count, out)?;
    out.put(b"\n")
}

/// Puts the line of a step that is not enabled.
#[tactic(auto, unfolding(crate::specs::Refusals::not_enabled_line))]
fn put_not_enabled<P: Put>(
    file: &FileName,
    line: u32,
    tokens: &[u8],
    out: &mut P,
) -> Result<(), PutRefused>
    ensures puts { Puts (not_enabled_line file.now line tokens.now) result (P.taken out.old) (P.taken out.new) }
    ensures goes_on { P.goes_on out.old out.new }
{
    put_place(file, line, out)?;
    out.put(b"not enabled: ")?;
    out.put(tokens)?;
    out.put(b"\n")
}

/// Puts two pieces and a line feed.
fn put_line<P: Put>(front: &[u8], back: &[u8], out: &mut P) -> Result<(), PutRefused>
    ensures puts { Puts (front.now ++ back.now ++ codes "\n") result (P.taken out.old) (P.taken out.new) }
    ensures goes_on { P.goes_on out.old out.new }
{
    out.put(front)?;
    out.put(back)?;
    out.put(b"\n")
}
