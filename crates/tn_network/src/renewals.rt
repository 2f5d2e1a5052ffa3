ghost use Rattle.std.specs.Prelude.{◌≡◌, ℕ, ◌*◌, ◌<◌, ◌≤◌, false, length};
ghost use Rattle.tn_network.specs.Holds.{HoldState};
ghost use Rattle.tn_network.specs.Nets.{net_of};
ghost use Rattle.tn_network.specs.Inner.PickBits.{has_bit, first_number, is_host, is_of, is_at, is_touched, HasRoom, TellPicks};
ghost use Rattle.tn_network.specs.Inner.PickBits.{IsRenewed, IsAmong, kind_enabled};

use crate::bits::set_bit;
use crate::boards::Board;
use crate::holds::Holds;
use crate::numbers::{KINDS, first_number};
use tn_mem::Memory;
use tn_net::Far;

/// Renews the bits of the picks of all.
pub fn renew_all(words: &mut [u64], board: &Board<Memory>, holds: &Holds)
    requires entries { length holds.now.entries ≡ length board.now.state.nodes }
    requires room { HasRoom (length board.now.state.nodes) words.old }
    requires clear { (k : ℕ) → first_number (length board.now.state.nodes) ≤ k → k < 64 * length words.old → has_bit words.old k ≡ false }
    ensures { TellPicks words.new (net_of board.now holds.now) }
{
    renew_host(words, board);
    for p in 0..board.count() {
        renew(words, board, holds, p);
    }
}

/// Renews the bits of the picks of those that a pick touched: its processor, the other end of its
/// wire, and the host.
pub fn renew_touched(words: &mut [u64], board: &Board<Memory>, holds: &Holds, p: u32, far: Far)
    requires here { p < length board.now.state.nodes }
    requires there { IsAmong (length board.now.state.nodes) far }
    requires entries { length holds.now.entries ≡ length board.now.state.nodes }
    requires room { HasRoom (length board.now.state.nodes) words.old }
    ensures { IsRenewed (is_touched p far) (net_of board.now holds.now) words.old words.new }
{
    renew_host(words, board);
    renew(words, board, holds, p);
    renew_far(words, board, holds, far);
}

/// Renews the bits of the host's picks.
fn renew_host(words: &mut [u64], board: &Board<Memory>)
    requires { 2 ≤ 64 * length words.old }
    ensures { (holds : HoldState) → IsRenewed is_host (net_of board.now holds) words.old words.new }
{
    set_bit(words, 0, board.host_sends());
    set_bit(words, 1, board.host_takes());
}

/// Renews the bits of the picks of the processor at a far end, if one is there.
fn renew_far(words: &mut [u64], board: &Board<Memory>, holds: &Holds, far: Far)
    requires there { IsAmong (length board.now.state.nodes) far }
    requires entries { length holds.now.entries ≡ length board.now.state.nodes }
    requires room { HasRoom (length board.now.state.nodes) words.old }
    ensures { IsRenewed (is_at far) (net_of board.now holds.now) words.old words.new }
{
    match far {
        Far::Nothing => {}
        Far::Host => {}
        Far::Link(q, _) => renew(words, board, holds, q),
    }
}

/// Renews the bits of the picks of a processor.
fn renew(words: &mut [u64], board: &Board<Memory>, holds: &Holds, p: u32)
    requires here { p < length board.now.state.nodes }
    requires entries { length holds.now.entries ≡ length board.now.state.nodes }
    requires room { HasRoom (length board.now.state.nodes) words.old }
    ensures { IsRenewed (is_of p) (net_of board.now holds.now) words.old words.new }
{
    for kind in 0..KINDS {
        let on = kind_enabled(board, holds, p, kind);
        set_bit(words, first_number(p) + kind, on);
    }
}

/// Whether the pick of a processor with a number from 0 to 8 is enabled.
fn kind_enabled(board: &Board<Memory>, holds: &Holds, p: u32, kind: usize) -> bool
    requires here { p < length board.now.state.nodes }
    requires entries { length holds.now.entries ≡ length board.now.state.nodes }
    requires kind { kind < 9 }
    ensures { result ≡ kind_enabled (net_of board.now holds.now) p kind }
{
    if kind == 0 {
        board.runs(p) && !holds.holds(p, board.node(p))
    } else if kind < 5 {
        board.can_send(p, (kind - 1) as u8)
    } else {
        board.can_take(p, (kind - 5) as u8)
    }
}
