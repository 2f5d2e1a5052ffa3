ghost use Rattle.std.specs.Prelude.{◌≡◌, length, IfOk};
ghost use Rattle.tn_net.specs.Networks.{IsEnd, far_at, IsPairing};

use std::alloc::{AllocError, Global};
use std::marker::Model;
use tn_net::{Far, Network};

/// The wires of a network.
#[derive(Drop)]
pub struct Wiring {
    sizes: Vec<u32>,
    fars: Vec<Far>,
    root: u32,
    root_link: u8,
}

impl Model for Wiring {
    ghost use Rattle.tn_net.specs.Networks.{NetworkState, IsPairing};

    ghost Value = { NetworkState };

    ghost view = { λ w. record { sizes = w.sizes.items; fars = w.fars.items; root = w.root; root_link = w.root_link } };

    ghost invariant = { λ w. IsPairing (record { sizes = w.sizes.items; fars = w.fars.items; root = w.root; root_link = w.root_link }) };
}

impl Wiring {
    /// The wires of a network.
    pub fn of(alloc: Global, network: &Network) -> Result<Wiring, AllocError>
        ensures wiring { IfOk result (λ wiring. wiring ≡ network.now) }
        ensures pairing { IfOk result (λ wiring. IsPairing wiring) }
    {
        let sizes = sizes_of(alloc, network)?;
        let fars = fars_of(alloc, network)?;
        let (root, root_link) = network.root();
        Ok(Wiring {
            sizes,
            fars,
            root,
            root_link,
        })
    }

    /// Equal wires.
    pub fn copied(&self) -> Result<Wiring, AllocError>
        ensures { IfOk result (λ wiring. wiring ≡ self.now) }
    {
        Ok(Wiring {
            sizes: self.sizes.clone()?,
            fars: self.fars.clone()?,
            root: self.root,
            root_link: self.root_link,
        })
    }

    /// The number of processors.
    pub fn count(&self) -> u32
        ensures value { result ≡ length self.now.sizes }
        ensures pairing { IsPairing self.now }
    {
        self.sizes.len() as u32
    }

    /// What is at the far end of link `l` of processor `p`.
    pub fn far(&self, p: u32, l: u8) -> Far
        requires { IsEnd self.now p l }
        ensures value { result ≡ far_at self.now p l }
        ensures pairing { IsPairing self.now }
    {
        self.fars[4 * p as usize + usize::from(l)]
    }

    /// The processor and the link that the host is wired to.
    pub fn root(&self) -> (u32, u8)
        ensures value { result ≡ (self.now.root, self.now.root_link) }
        ensures pairing { IsPairing self.now }
    {
        (self.root, self.root_link)
    }
}

/// The sizes of the memories.
fn sizes_of(alloc: Global, network: &Network) -> Result<Vec<u32>, AllocError>
    ensures { IfOk result (λ sizes. sizes.items ≡ network.now.sizes) }
{
    let mut sizes = Vec::new(alloc);
    for p in 0..network.count() {
        sizes.push(network.size(p))?;
    }
    Ok(sizes)
}

/// The far ends of all links, four for each processor in order.
fn fars_of(alloc: Global, network: &Network) -> Result<Vec<Far>, AllocError>
    ensures { IfOk result (λ fars. fars.items ≡ network.now.fars) }
{
    let mut fars = Vec::new(alloc);
    for k in 0..4 * network.count() {
        fars.push(network.far(k / 4, (k % 4) as u8))?;
    }
    Ok(fars)
}
