ghost use Rattle.std.specs.Prelude.{◌≡◌, ◌<◌};
ghost use Rattle.tn_word.specs.Channels.{in_channel_of, out_channel_of};

use crate::words::MOST_NEG;

/// The address of the channel word that puts out on link `l`, which is below 4.
pub fn out_channel(l: u8) -> u32
    requires { l < 4 }
    ensures { result ≡ out_channel_of l }
{
    MOST_NEG + 4 * u32::from(l)
}

/// The address of the channel word that takes in on link `l`, which is below 4.
pub fn in_channel(l: u8) -> u32
    requires { l < 4 }
    ensures { result ≡ in_channel_of l }
{
    MOST_NEG + 16 + 4 * u32::from(l)
}
