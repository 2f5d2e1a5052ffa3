ghost use Rattle.std.specs.Prelude.{◌≡◌, length, option_map, is_ok, OnOk, OnErr};
ghost use Rattle.tn_network.specs.Nets.{net_enabled, net_after};
ghost use Rattle.tn_sym.specs.Follows.{behind, is_prefix};
ghost use Rattle.tn_sym.specs.SymbolicRuns.{taken, beside_made, beside_pick, beside};
ghost use Rattle.tn_replay.specs.Replays.{settling, rests};

use tn_network::{Net, NotEnabled, Pick};
use tn_node::Made;
use tn_sym::SymNet;

/// Makes a pick of a network, and of the symbolic one beside it, if there is one: that takes all but
/// prefix bytes, until it stops.
pub fn pick_beside(
    net: &mut Net,
    symbolic: &mut Option<SymNet>,
    pick: Pick,
) -> Result<(), NotEnabled>
    ensures enabled { is_ok result ≡ net_enabled net.old pick }
    ensures net { OnOk result (net.new ≡ net_after pick net.old) }
    ensures symbolic { OnOk result (symbolic.new ≡ option_map (beside_pick net.old pick) symbolic.old) }
    ensures refused { OnErr result (net.new ≡ net.old) }
{
    match net.apply(pick) {
        Ok(made) => {
            go_beside(symbolic, made, pick);
            Ok(())
        }
        Err(refused) => Err(refused),
    }
}

/// What a pick that made this of a network makes of the symbolic one beside it.
fn go_beside(symbolic: &mut Option<SymNet>, made: Made, pick: Pick)
    ensures { symbolic.new ≡ option_map (beside_made (is_prefix made) pick) symbolic.old }
{
    match symbolic {
        Some(symbolic) => take_beside(symbolic, made, pick),
        None => {}
    }
}

fn take_beside(symbolic: &mut SymNet, made: Made, pick: Pick)
    ensures { symbolic.new ≡ beside_made (is_prefix made) pick symbolic.old }
{
    match made {
        Made::Prefix => {}
        Made::Whole => take(symbolic, pick),
        Made::Link => take(symbolic, pick),
    }
}

/// Makes a pick where it is enabled.
fn take(symbolic: &mut SymNet, pick: Pick)
    ensures { symbolic.new ≡ taken pick symbolic.old }
{
    let _enabled = symbolic.apply(pick);
}

/// Settles a network, and the symbolic one beside it: makes up to `most` picks, always the one that is
/// enabled and comes first, or with `back` last. Answers how many were made, and whether the network is
/// at rest then.
pub fn settle_beside(
    net: &mut Net,
    symbolic: &mut Option<SymNet>,
    most: u32,
    back: bool,
) -> (u64, bool)
    ensures made { result.0 ≡ length (settling most back net.old) }
    ensures net { net.new ≡ behind net.old (settling most back net.old) }
    ensures symbolic { symbolic.new ≡ option_map (beside net.old (settling most back net.old)) symbolic.old }
    ensures rests { result.1 ≡ rests net.new }
{
    let mut made: u32 = 0;
    while made < most {
        let Some(pick) = net.first(back) else {
            return (u64::from(made), true);
        };
        let _enabled = pick_beside(net, symbolic, pick);
        made += 1;
    }
    (u64::from(made), net.at_rest())
}
