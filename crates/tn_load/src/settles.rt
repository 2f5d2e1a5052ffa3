ghost use Rattle.tn_load.specs.Settles.{IsSettled};

use crate::walks::Walk;

/// Steps a state until it is at rest or until `most` steps were made, each the first in order or with
/// `back` the last, and answers how many steps were made and whether it is at rest then.
pub fn settle<W: Walk>(net: &mut W, most: u64, back: bool) -> (u64, bool)
    ensures { IsSettled W.AtRest (W.next back) most net.old net.new result.0 result.1 }
{
    let mut steps = 0;
    while steps < most {
        if net.at_rest() {
            return (steps, true);
        }
        net.walk(back);
        steps += 1;
    }
    (steps, net.at_rest())
}
