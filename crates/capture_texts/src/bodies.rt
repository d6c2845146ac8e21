//! The bodies of blocks.

ghost use Rattle.std.specs.Prelude.{◌≡◌, ◌++◌, ◌≤◌, length, OnOk};
ghost use Rattle.capture_texts.specs.Blocks.{comment_kept, comment_option, flags_option, interface_body, packet_body, packet_data, packet_head, padded, section_body, size_octets, time_octets};

use crate::options::{end_options, padding, push_four, push_option, push_two};
use crate::packet::{Direction, Packet};
use std::alloc::AllocError;

/// The number by which a reader finds the order of the octets (pcapng, Byte-Order Magic).
const BYTE_ORDER: u32 = 0x1A2B_3C4D;

/// One half of the length of a section that is not known (pcapng, Section Length).
const UNKNOWN: u32 = 0xFFFF_FFFF;

/// The link type of PDUs that an upper layer exported (LINKTYPE_WIRESHARK_UPPER_PDU).
const EXPORTED_PDU: u16 = 252;

/// The codes of options (pcapng, opt_comment, if_name, if_tsresol, epb_flags).
const COMMENT: u16 = 1;

const NAME: u16 = 2;

const RESOLUTION: u16 = 9;

const FLAGS: u16 = 2;

/// The resolution of times: 10 to the power of minus 6, which is a microsecond.
const MICROSECOND: u8 = 6;

/// What stands before a telegram: the tag of a dissector's name, 12, with the name `fdl` and a zero, and the end of the
/// tags. Their numbers are in big-endian order (Wireshark, exported_pdu_tlvs.h).
const TAGS: [u8; 12] = [0, 12, 0, 4, b'f', b'd', b'l', 0, 0, 0, 0, 0];

/// The number of octets of a comment that are written.
const MOST_OF_COMMENT: usize = 65_535;

/// Replaces `body` with that of a section header. `AllocError` if memory runs out.
#[tactic(auto, unfolding(crate::specs::Blocks::section_body))]
pub(crate) fn fill_section(body: &mut Vec<u8>, comment: &[u8]) -> Result<(), AllocError>
    requires { length comment.now ≤ 65535 }
    ensures { OnOk result (body.new.items ≡ section_body comment.now) }
{
    body.clear();
    push_four(body, BYTE_ORDER)?;
    push_two(body, 1)?;
    push_two(body, 0)?;
    push_four(body, UNKNOWN)?;
    push_four(body, UNKNOWN)?;
    push_option(body, COMMENT, comment)?;
    end_options(body)
}

/// Replaces `body` with that of an interface. `AllocError` if memory runs out.
#[tactic(auto, unfolding(crate::specs::Blocks::interface_body))]
pub(crate) fn fill_interface(body: &mut Vec<u8>, name: &[u8]) -> Result<(), AllocError>
    requires { length name.now ≤ 65535 }
    ensures { OnOk result (body.new.items ≡ interface_body name.now) }
{
    body.clear();
    push_two(body, EXPORTED_PDU)?;
    push_two(body, 0)?;
    push_four(body, 0)?;
    push_option(body, NAME, name)?;
    push_option(body, RESOLUTION, &[MICROSECOND])?;
    end_options(body)
}

/// Replaces `body` with that of a packet. `AllocError` if memory runs out.
#[tactic(auto, unfolding(crate::specs::Blocks::packet_body))]
pub(crate) fn fill_packet(body: &mut Vec<u8>, sent: &Packet<'_>) -> Result<(), AllocError>
    requires { length sent.now.telegram ≤ 65535 }
    ensures { OnOk result (body.new.items ≡ packet_body sent.now) }
{
    body.clear();
    push_head(body, sent)?;
    push_data(body, sent.telegram)?;
    push_comment(body, sent.comment)?;
    push_flags(body, sent.direction)?;
    end_options(body)
}

/// Appends what stands before the data of a packet. `AllocError` if memory runs out.
#[tactic(auto, unfolding(crate::specs::Blocks::packet_head))]
fn push_head(body: &mut Vec<u8>, sent: &Packet<'_>) -> Result<(), AllocError>
    requires { length sent.now.telegram ≤ 65535 }
    ensures { OnOk result (body.new.items ≡ body.old.items ++ packet_head sent.now) }
{
    push_four(body, sent.interface)?;
    push_time(body, sent.time)?;
    push_size(body, data_size(sent.telegram))
}

/// Appends a time, its upper half first. `AllocError` if memory runs out.
#[tactic(auto, unfolding(crate::specs::Blocks::time_octets))]
fn push_time(body: &mut Vec<u8>, time: u64) -> Result<(), AllocError>
    ensures { OnOk result (body.new.items ≡ body.old.items ++ time_octets time) }
{
    push_four(body, (time >> 32) as u32)?;
    push_four(body, (time & 0xFFFF_FFFF) as u32)
}

/// Appends the number of octets that are captured, and that the packet has. `AllocError` if memory runs out.
#[tactic(auto, unfolding(crate::specs::Blocks::size_octets))]
fn push_size(body: &mut Vec<u8>, size: u32) -> Result<(), AllocError>
    ensures { OnOk result (body.new.items ≡ body.old.items ++ size_octets size) }
{
    push_four(body, size)?;
    push_four(body, size)
}

/// Returns the number of octets of the tags and a telegram.
#[tactic(auto, using(crate::proofs::Sizes::length_data))]
fn data_size(telegram: &[u8]) -> u32
    requires { length telegram.now ≤ 65535 }
    ensures { result ≡ length (packet_data telegram.now) }
{
    (TAGS.len() + telegram.len()) as u32
}

/// Appends a comment, or as much of it as an option can have. `AllocError` if memory runs out.
#[tactic(auto, using(crate::proofs::Sizes::comment_is))]
fn push_comment(body: &mut Vec<u8>, comment: &[u8]) -> Result<(), AllocError>
    ensures { OnOk result (body.new.items ≡ body.old.items ++ comment_option (comment_kept comment.now)) }
{
    let kept = &comment[..MOST_OF_COMMENT.min(comment.len())];
    push_option(body, COMMENT, kept)
}

/// Appends the flags of a packet with this direction. `AllocError` if memory runs out.
#[tactic(auto, unfolding(crate::specs::Blocks::flags_option, crate::specs::Blocks::four))]
fn push_flags(body: &mut Vec<u8>, direction: Direction) -> Result<(), AllocError>
    ensures { OnOk result (body.new.items ≡ body.old.items ++ flags_option direction) }
{
    push_option(body, FLAGS, &direction.flags().to_le_bytes())
}

/// Appends the data of a packet: the tags and the octets of a telegram, padded. `AllocError` if memory runs out.
#[tactic(auto, using(crate::proofs::Sizes::length_data), unfolding(crate::specs::Blocks::padded, crate::specs::Blocks::packet_data))]
fn push_data(body: &mut Vec<u8>, telegram: &[u8]) -> Result<(), AllocError>
    ensures { OnOk result (body.new.items ≡ body.old.items ++ padded (packet_data telegram.now)) }
{
    body.extend_from_slice(&TAGS)?;
    body.extend_from_slice(telegram)?;
    body.extend_from_slice(padding(TAGS.len() + telegram.len()))
}
