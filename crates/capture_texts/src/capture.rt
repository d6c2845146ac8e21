//! The blocks of a capture, gathered in memory.

ghost use Rattle.std.specs.Prelude.{◌≡◌, ◌++◌, ◌≤◌, [], length, OnOk};
ghost use Rattle.capture_texts.specs.Blocks.{block_octets, interface, packet, section};

use crate::bodies::{fill_interface, fill_packet, fill_section};
use crate::options::push_framed;
use crate::packet::Packet;
use std::alloc::{AllocError, Global};
use std::marker::Model;

/// The types of blocks (pcapng, Section Header Block, Interface Description Block, Enhanced Packet Block).
const SECTION: u32 = 0x0A0D_0D0A;

const INTERFACE: u32 = 1;

const PACKET: u32 = 6;

/// The blocks of a capture, gathered in memory. Contracts see their octets.
///
/// After an `AllocError` the octets are of no use until [`Capture::clear`].
#[derive(Drop)]
pub struct Capture {
    octets: Vec<u8>,
    /// The body of the block that is made.
    body: Vec<u8>,
}

impl Model for Capture {
    ghost use Rattle.std.specs.Prelude.{ℕ, List};

    ghost Value = { List ℕ };

    ghost view = { λ c. c.octets.items };
}

impl Capture {
    /// Returns a capture without a block. It takes no memory yet.
    pub fn new(alloc: Global) -> Capture
        ensures { result ≡ [] }
    {
        Capture {
            octets: Vec::new(alloc),
            body: Vec::new(alloc),
        }
    }

    /// Removes all blocks, and keeps the memory.
    pub fn clear(&mut self)
        ensures { self.new ≡ [] }
    {
        self.octets.clear();
    }

    /// Returns the octets of the blocks.
    pub fn as_bytes(&self) -> &[u8]
        ensures { result.now ≡ self.now }
    {
        self.octets.as_slice()
    }

    /// Appends the section header, which comes first, with a comment. `AllocError` if memory runs out.
    #[tactic(auto, using(crate::proofs::Sizes::section_fits))]
    pub fn push_section(&mut self, comment: &[u8]) -> Result<(), AllocError>
        requires { length comment.now ≤ 65535 }
        ensures { OnOk result (self.new ≡ self.old ++ block_octets (section comment.now)) }
    {
        fill_section(&mut self.body, comment)?;
        push_framed(&mut self.octets, SECTION, self.body.as_slice())
    }

    /// Appends an interface with a name. The first one has number 0. `AllocError` if memory runs out.
    #[tactic(auto, using(crate::proofs::Sizes::interface_fits))]
    pub fn push_interface(&mut self, name: &[u8]) -> Result<(), AllocError>
        requires { length name.now ≤ 65535 }
        ensures { OnOk result (self.new ≡ self.old ++ block_octets (interface name.now)) }
    {
        fill_interface(&mut self.body, name)?;
        push_framed(&mut self.octets, INTERFACE, self.body.as_slice())
    }

    /// Appends a packet. `AllocError` if memory runs out.
    #[tactic(auto, using(crate::proofs::Sizes::packet_fits))]
    pub fn push_packet(&mut self, sent: &Packet<'_>) -> Result<(), AllocError>
        requires { length sent.now.telegram ≤ 65535 }
        ensures { OnOk result (self.new ≡ self.old ++ block_octets (packet sent.now)) }
    {
        fill_packet(&mut self.body, sent)?;
        push_framed(&mut self.octets, PACKET, self.body.as_slice())
    }
}
