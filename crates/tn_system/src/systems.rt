use std::alloc::AllocFailed;
use tn_net::{Network, Tree};
use tn_stream::Image;
use tn_sym::Program;
use tn_text::limits::Limit;
use tn_text::{Fault, FileName};

/// What all processors of a network are loaded with, and how.
#[derive(Drop)]
pub struct System {
    /// The images of the processors, in the order of the configuration.
    pub images: Vec<Image>,
    /// The programs that the images are made of, in the same order.
    pub programs: Vec<Program>,
    pub network: Network,
    /// The order in which they are loaded.
    pub tree: Tree,
}

/// Why there is no system.
#[derive(Drop)]
pub enum SystemFault {
    /// The file has this fault.
    Fault(FileName, Fault),
    /// This limit is passed, by this count.
    Limit(Limit, u64),
    NoMemory,
}

impl<T: Drop> From<AllocFailed<T>> for SystemFault {
    ghost use Rattle.std.specs.Prelude.{◌≡◌};
    ghost use Rattle.tn_system.specs.declared.systems.SystemFault.TheVariants as fault;

    ghost from_gives = { λ _ made. made ≡ fault.NoMemory };

    fn from(_failed: AllocFailed<T>) -> SystemFault {
        SystemFault::NoMemory
    }
}
