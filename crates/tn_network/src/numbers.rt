ghost use Rattle.std.specs.Prelude.{◌≡◌, ◌+◌, ◌*◌, ◌^◌, ◌<◌, Some, None, if◌then◌else◌};
ghost use Rattle.tn_network.specs.Inner.PickBits.{numbered, number_of, pick_of, HasWord};

use crate::picks::Pick;

/// How many picks of a processor have a number of their own: a step, four of sending and four of taking.
pub const KINDS: usize = 9;

/// The number of the first pick of a processor, and how many picks there are of those before it.
pub fn first_number(p: u32) -> usize
    ensures { result ≡ 2 + 9 * p }
{
    2 + KINDS * p as usize
}

/// The number of a pick of a network of so many processors, if there is such a pick.
pub fn number_of(count: u32, pick: Pick) -> Option<usize>
    ensures value { result ≡ number_of count pick }
    ensures word { HasWord pick }
{
    match pick {
        Pick::HostSend => Some(0),
        Pick::HostTake => Some(1),
        Pick::Proc(p, _, _) => number_at(p < count, first_number(p)),
        Pick::Send(p, l) => number_at(p < count && l < 4, first_number(p) + (1 + usize::from(l))),
        Pick::Take(p, l) => number_at(p < count && l < 4, first_number(p) + (5 + usize::from(l))),
    }
}

/// A number, if there is a pick with it.
fn number_at(there: bool, number: usize) -> Option<usize>
    ensures { result ≡ (if there then Some number else None) }
{
    if there { Some(number) } else { None }
}

/// The pick that has a number.
#[tactic(auto, unfolding(crate::specs::Inner::PickBits::numbered))]
pub fn numbered(number: usize) -> Pick
    requires { number < 2 ^ 32 }
    ensures { result ≡ numbered number }
{
    if number == 0 {
        Pick::HostSend
    } else if number == 1 {
        Pick::HostTake
    } else {
        pick_of(((number - 2) / KINDS) as u32, ((number - 2) % KINDS) as u8)
    }
}

/// The picks of a processor in order: it steps, it sends on links 0 to 3, it takes on links 0 to 3.
fn pick_of(p: u32, kind: u8) -> Pick
    ensures { result ≡ pick_of p kind }
{
    match kind {
        0 => Pick::Proc(p, false, 0),
        1..=4 => Pick::Send(p, kind - 1),
        _ => Pick::Take(p, kind - 5),
    }
}
