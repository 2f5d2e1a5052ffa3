ghost use Rattle.std.specs.Prelude.{◌≡◌, ◌<◌, ◌≤◌, length, true, false, Some, None, IsSome, IfOk};
ghost use Rattle.tn_network.specs.Hosts.{HostState, new_host, next_byte, other_bytes, kept_with, host_sends, host_takes};

use std::alloc::{AllocError, Global};
use std::marker::Model;

/// The most bytes that the host keeps, by this project's rule.
pub const KEPT_LIMIT: usize = 65_536;

/// The host. Room for all that it keeps is taken at first.
#[derive(Drop)]
pub struct Host {
    bytes: Vec<u8>,
    given: usize,
    sent: bool,
    latch: Option<u8>,
    kept: Vec<u8>,
    count: usize,
}

impl Model for Host {
    ghost use Rattle.std.specs.Prelude.{ℕ, ◌≡◌, ◌≤◌, length, take, drop};
    ghost use Rattle.tn_network.specs.declared.hosts.TheConstants.{KEPT_LIMIT};
    ghost use Rattle.tn_network.specs.Hosts.{HostState};

    ghost Value = { HostState };

    ghost view = { λ h. record { left = drop h.given h.bytes.items; sent = h.sent; latch = h.latch; kept = take h.count h.kept.items } };

    ghost invariant = { λ h. (h.given ≤ length h.bytes.items) × (length h.kept.items ≡ KEPT_LIMIT) × (h.count ≤ KEPT_LIMIT) };
}

impl Host {
    /// A host that has these bytes to send.
    pub fn new(alloc: Global, bytes: Vec<u8>) -> Result<Host, AllocError>
        ensures { IfOk result (λ host. host ≡ new_host bytes.items) }
    {
        let kept = vec![in alloc; 0u8; KEPT_LIMIT]?;
        Ok(Host {
            bytes,
            given: 0,
            sent: false,
            latch: None,
            kept,
            count: 0,
        })
    }

    /// An equal host.
    pub fn copied(&self) -> Result<Host, AllocError>
        ensures { IfOk result (λ host. host ≡ self.now) }
    {
        Ok(Host {
            bytes: self.bytes.clone()?,
            given: self.given,
            sent: self.sent,
            latch: self.latch,
            kept: self.kept.clone()?,
            count: self.count,
        })
    }

    /// How many bytes it has left to send.
    pub fn left(&self) -> u64
        ensures { result ≡ length self.now.left }
    {
        (self.bytes.len() - self.given) as u64
    }

    /// Whether a byte of it is not acknowledged.
    pub fn sent(&self) -> bool
        ensures { result ≡ self.now.sent }
    {
        self.sent
    }

    /// What its latch holds.
    pub fn latch(&self) -> Option<u8>
        ensures { result ≡ self.now.latch }
    {
        self.latch
    }

    /// The bytes that it has kept.
    pub fn kept(&self) -> &[u8]
        ensures { result.now ≡ self.now.kept }
    {
        &self.kept[..self.count]
    }

    /// Whether it can send a byte.
    #[tactic(auto, using(crate::proofs::HostLaws::next_byte_drop))]
    pub fn can_send(&self) -> bool
        ensures { result ≡ host_sends self.now }
    {
        self.given < self.bytes.len() && !self.sent
    }

    /// Whether it can take a byte.
    pub fn can_take(&self) -> bool
        ensures { result ≡ host_takes self.now }
    {
        self.latch.is_some() && self.count < KEPT_LIMIT
    }

    /// Sends its next byte.
    pub fn send(&mut self) -> u8
        requires { host_sends self.old ≡ true }
        ensures byte { next_byte self.old.left ≡ Some result }
        ensures state { self.new ≡ record self.old { left = other_bytes self.old.left; sent = true } }
    {
        let byte = self.bytes[self.given];
        self.given += 1;
        self.sent = true;
        byte
    }

    /// Takes the byte in its latch.
    pub fn take(&mut self)
        requires { host_takes self.old ≡ true }
        ensures { self.new ≡ record self.old { latch = None; kept = kept_with self.old.latch self.old.kept } }
    {
        if let Some(byte) = self.latch {
            self.kept[self.count] = byte;
            self.count += 1;
            self.latch = None;
        }
    }

    /// Gets a byte into its latch.
    pub fn put(&mut self, byte: u8)
        ensures { self.new ≡ record self.old { latch = Some byte } }
    {
        self.latch = Some(byte);
    }

    /// Notes that its byte is acknowledged.
    pub fn acknowledge(&mut self)
        ensures { self.new ≡ record self.old { sent = false } }
    {
        self.sent = false;
    }
}
