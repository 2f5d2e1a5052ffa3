ghost use Rattle.std.specs.Prelude.{◌≡◌, ℕ, ◌+◌, ◌*◌, ◌<◌, length, map, slice_index, Err, IfOk};
ghost use Rattle.tn_text.specs.declared.faults.ReadFault.TheVariants as read;
ghost use Rattle.tn_text.specs.Reading.{Gives};
ghost use Rattle.tn_net.specs.RawNetworks.{raw_of};
ghost use Rattle.tn_mem.specs.Sizes.{IsMemorySize};
ghost use Rattle.tn_net.specs.Lines.{IsAdmitted};
ghost use Rattle.tn_net.specs.Faults.{IsFaultless, IsNetworkFault};

use crate::lines::{RawNetwork, end_lines};
use crate::names::{first_repeated, named};
use crate::tables::wired;
use std::alloc::{AllocError, Global};
use std::marker::Model;
use tn_text::{Cause, Detail, FaultCode, Name, ReadFault};

/// What is at the far end of a link.
#[derive(Clone, Copy, PartialEq, Eq)]
pub enum Far {
    Nothing,
    Host,
    /// A processor and one of its links.
    Link(u32, u8),
}

/// A network: processors with their memories, links paired one to one and both ways, and one link
/// that the host has.
#[derive(Drop)]
pub struct Network {
    sizes: Vec<u32>,
    fars: Vec<Far>,
    root: u32,
    root_link: u8,
}

impl Model for Network {
    ghost use Rattle.tn_net.specs.Networks.{NetworkState, IsPairing};

    ghost Value = { NetworkState };

    ghost view = { λ n. record { sizes = n.sizes.items; fars = n.fars.items; root = n.root; root_link = n.root_link } };

    ghost invariant = { λ n. IsPairing (record { sizes = n.sizes.items; fars = n.fars.items; root = n.root; root_link = n.root_link }) };
}

impl Network {
    ghost use Rattle.tn_net.specs.Networks.{IsEnd, far_at, IsNetwork, IsPairing};

    /// The network that is described, or the first fault: `DuplicateProcessor` at the first line
    /// whose name an earlier one has; else that of the first host or wire line, by number, with
    /// something wrong; else `NoHost`, at the number of lines plus 1. On a line `UnknownProcessor`
    /// comes before `WireTwice`, and the first end before the second. `WireTwice` says that the end
    /// stands on an earlier line, or is the first end of the same line.
    pub fn check(alloc: Global, raw: &RawNetwork) -> Result<Network, ReadFault>
        requires { IsAdmitted (raw_of raw.now) }
        ensures network { IfOk result (λ n. IsNetwork (raw_of raw.now) n) }
        ensures faultless { IfOk result (λ n. IsFaultless (raw_of raw.now)) }
        ensures pairing { IfOk result (λ n. IsPairing n) }
        ensures fault { (fault : _) → result ≡ Err (read.Fault fault) → IsNetworkFault (raw_of raw.now) fault }
        ensures only { (fault : _) → IsNetworkFault (raw_of raw.now) fault → Gives (λ n. n) result (Err fault) }
    {
        if let Some(place) = first_repeated(&raw.names) {
            let (name, _, line) = raw.names[place];
            let code = FaultCode::DuplicateProcessor;
            let detail = Detail::Named(name);
            return Err(ReadFault::Fault(Cause { code, detail }.at(line)));
        }
        let lines = end_lines(alloc, raw)?;
        let fars = wired(alloc, &raw.names, &lines)?;
        let Some((name, root_link, _)) = raw.host else {
            return Err(ReadFault::Fault(Cause::bare(FaultCode::NoHost).at(raw.lines + 1)));
        };
        let Some(root) = named(&raw.names, &name) else {
            unreachable!()
        };
        let sizes = sizes_of(alloc, &raw.names)?;
        Ok(Network {
            sizes,
            fars,
            root: root as u32,
            root_link,
        })
    }

    /// The number of processors.
    pub fn count(&self) -> u32
        ensures value { result ≡ length self.now.sizes }
        ensures pairing { IsPairing self.now }
    {
        self.sizes.len() as u32
    }

    /// The size of a processor's memory in bytes.
    pub fn size(&self, p: u32) -> u32
        requires { p < length self.now.sizes }
        ensures value { result ≡ slice_index self.now.sizes p }
        ensures size { IsMemorySize result }
    {
        self.sizes[p as usize]
    }

    /// What is at the far end of link `l` of processor `p`.
    pub fn far(&self, p: u32, l: u8) -> Far
        requires { IsEnd self.now p l }
        ensures value { result ≡ far_at self.now p l }
        ensures pairing { IsPairing self.now }
    {
        self.fars[4 * p as usize + usize::from(l)]
    }

    /// The processor and the link that the host is wired to.
    pub fn root(&self) -> (u32, u8)
        ensures value { result ≡ (self.now.root, self.now.root_link) }
        ensures pairing { IsPairing self.now }
    {
        (self.root, self.root_link)
    }
}

/// The sizes of the memories.
fn sizes_of(alloc: Global, names: &[(Name, u32, u32)]) -> Result<Vec<u32>, AllocError>
    ensures { IfOk result (λ sizes. sizes.items ≡ map (λ processor. processor.1) names.now) }
{
    names.iter().map(|processor| processor.1).collect(alloc)
}
