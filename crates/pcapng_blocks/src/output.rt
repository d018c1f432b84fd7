//! A block's way to an output.

ghost use Rattle.std.specs.Prelude.{◌≡◌, ◌+◌, ◌<◌, ◌≤◌, ◌^◌, ◌/◌, ◌%◌, ◌++◌, length, OnOk, OnErr};
ghost use Rattle.std.specs.Int.{w16, w32, to_le_bytes};
ghost use Rattle.std.specs.Io.KnownBytes.{Appends};
ghost use Rattle.pcapng_blocks.specs.Bytes.{padded_len, padding};
ghost use Rattle.pcapng_blocks.specs.Options.{AreOptions, IsOption, option_bytes, option_of, options_bytes};
ghost use Rattle.pcapng_blocks.specs.Blocks.{IsBlock, block_bytes};
ghost use Rattle.pcapng_blocks.specs.Blocks.BlockData.{OfSection};
ghost use Rattle.pcapng_blocks.specs.Outputs.{TakesStart};
ghost use Rattle.pcapng_blocks.specs.Views.{block_data, option_data, options_data};
ghost use Rattle.pcapng_blocks.specs.declared.block.TheConstants.{ENHANCED_PACKET, INTERFACE_DESCRIPTION};

use crate::block::{
    BYTE_ORDER_MAGIC, Block, ENHANCED_PACKET, INTERFACE_DESCRIPTION, MAJOR_VERSION, MINOR_VERSION,
    SECTION_HEADER,
};
use crate::fault::BlockFault;
use crate::option::{
    BlockOption, COMMENT, FCS_LEN, INTERFACE_NAME, PACKET_FLAGS, TIME_OFFSET, TIME_RESOLUTION,
};
use std::io::Write;

/// The number of bytes of a section header.
const SECTION_LEN: usize = 28;
/// The number of bytes of an interface description before its options.
const INTERFACE_HEAD_LEN: usize = 16;
/// The number of bytes of an enhanced packet before its packet's.
const PACKET_HEAD_LEN: usize = 28;
/// The number of bytes of the total length at a block's end.
const TAIL_LEN: usize = 4;
/// The number of bytes of an option before its value.
const OPTION_HEAD_LEN: usize = 4;
/// The end of options (opt_endofopt).
const END_OF_OPTIONS: [u8; 4] = [0; 4];

/// Writes a block to an output. It takes no memory, and doesn't flush the output.
///
/// # Errors
///
/// [`BlockFault::Output`] if the output failed. Then it took the first bytes of the block.
pub fn write_block<W: Write>(out: &mut W, block: &Block<'_>) -> Result<(), BlockFault>
    requires { IsBlock (block_data block.now) }
    ensures whole { OnOk result (Appends (W.contents out.old) (W.contents out.new)
        (block_bytes (block_data block.now))) }
    ensures part { OnErr result (TakesStart (W.contents out.old) (W.contents out.new)
        (block_bytes (block_data block.now))) }
{
    match *block {
        Block::Section => write_bytes(out, &section()),
        Block::Interface {
            link_type,
            snap_len,
            options,
        } => {
            let len = (INTERFACE_HEAD_LEN + options_len(options) + TAIL_LEN) as u32;
            let head = interface_head(len, link_type, snap_len);
            write_parts(out, &head, &[], options, len)
        }
        Block::Packet {
            interface,
            time,
            bytes,
            options,
        } => {
            let behind = options_len(options) + TAIL_LEN;
            let len = (PACKET_HEAD_LEN + padded_len(bytes.len()) + behind) as u32;
            let head = packet_head(len, interface, time, bytes.len() as u32);
            write_parts(out, &head, bytes, options, len)
        }
    }
}

/// The bytes of a section header.
fn section() -> [u8; SECTION_LEN]
    ensures { result ≡ block_bytes OfSection }
{
    let [k0, k1, k2, k3] = SECTION_HEADER.to_le_bytes();
    let [l0, l1, l2, l3] = (SECTION_LEN as u32).to_le_bytes();
    let [b0, b1, b2, b3] = BYTE_ORDER_MAGIC.to_le_bytes();
    let [a0, a1] = MAJOR_VERSION.to_le_bytes();
    let [i0, i1] = MINOR_VERSION.to_le_bytes();
    [
        k0, k1, k2, k3, l0, l1, l2, l3, b0, b1, b2, b3, a0, a1, i0, i1, 255, 255, 255, 255, 255,
        255, 255, 255, l0, l1, l2, l3,
    ]
}

/// The bytes of an interface description before its options; `len` is its total length.
fn interface_head(len: u32, link_type: u16, snap_len: u32) -> [u8; INTERFACE_HEAD_LEN]
    ensures { result ≡ to_le_bytes w32 INTERFACE_DESCRIPTION ++ (to_le_bytes w32 len
        ++ (to_le_bytes w16 link_type ++ (to_le_bytes w16 0 ++ to_le_bytes w32 snap_len))) }
{
    let [k0, k1, k2, k3] = INTERFACE_DESCRIPTION.to_le_bytes();
    let [l0, l1, l2, l3] = len.to_le_bytes();
    let [t0, t1] = link_type.to_le_bytes();
    let [s0, s1, s2, s3] = snap_len.to_le_bytes();
    [k0, k1, k2, k3, l0, l1, l2, l3, t0, t1, 0, 0, s0, s1, s2, s3]
}

/// The bytes of an enhanced packet before its packet's; `len` is its total length, and `captured` the
/// number of the packet's bytes.
fn packet_head(len: u32, interface: u32, time: u64, captured: u32) -> [u8; PACKET_HEAD_LEN]
    ensures { result ≡ to_le_bytes w32 ENHANCED_PACKET ++ (to_le_bytes w32 len
        ++ (to_le_bytes w32 interface ++ (to_le_bytes w32 (time / 2 ^ 32)
        ++ (to_le_bytes w32 (time % 2 ^ 32)
        ++ (to_le_bytes w32 captured ++ to_le_bytes w32 captured))))) }
{
    let [k0, k1, k2, k3] = ENHANCED_PACKET.to_le_bytes();
    let [l0, l1, l2, l3] = len.to_le_bytes();
    let [i0, i1, i2, i3] = interface.to_le_bytes();
    let [h0, h1, h2, h3] = ((time >> 32) as u32).to_le_bytes();
    let [t0, t1, t2, t3] = ((time % (1 << 32)) as u32).to_le_bytes();
    let [c0, c1, c2, c3] = captured.to_le_bytes();
    [
        k0, k1, k2, k3, l0, l1, l2, l3, i0, i1, i2, i3, h0, h1, h2, h3, t0, t1, t2, t3, c0, c1, c2,
        c3, c0, c1, c2, c3,
    ]
}

/// Writes a block by its parts, one after the other: its head, its packet's bytes and their padding,
/// its options, and its total length.
fn write_parts<W: Write>(
    out: &mut W,
    head: &[u8],
    bytes: &[u8],
    options: &[BlockOption<'_>],
    len: u32,
) -> Result<(), BlockFault>
    requires { AreOptions (options_data options.now) }
    ensures whole { OnOk result (Appends (W.contents out.old) (W.contents out.new)
        (head.now ++ (bytes.now ++ (padding (length bytes.now)
        ++ (options_bytes (options_data options.now) ++ to_le_bytes w32 len))))) }
    ensures part { OnErr result (TakesStart (W.contents out.old) (W.contents out.new)
        (head.now ++ (bytes.now ++ (padding (length bytes.now)
        ++ (options_bytes (options_data options.now) ++ to_le_bytes w32 len))))) }
{
    write_bytes(out, head)?;
    write_padded(out, bytes)?;
    write_options(out, options)?;
    write_bytes(out, &len.to_le_bytes())
}

/// Writes a block's options, and behind them their end.
fn write_options<W: Write>(out: &mut W, options: &[BlockOption<'_>]) -> Result<(), BlockFault>
    requires { AreOptions (options_data options.now) }
    ensures whole { OnOk result (Appends (W.contents out.old) (W.contents out.new)
        (options_bytes (options_data options.now))) }
    ensures part { OnErr result (TakesStart (W.contents out.old) (W.contents out.new)
        (options_bytes (options_data options.now))) }
{
    if options.is_empty() {
        return Ok(());
    }
    'options: for option in options {
        write_option(out, option)?;
    }
    write_bytes(out, &END_OF_OPTIONS)
}

/// Writes an option.
fn write_option<W: Write>(out: &mut W, option: &BlockOption<'_>) -> Result<(), BlockFault>
    requires { IsOption (option_data option.now) }
    ensures whole { OnOk result (Appends (W.contents out.old) (W.contents out.new)
        (option_bytes (option_data option.now))) }
    ensures part { OnErr result (TakesStart (W.contents out.old) (W.contents out.new)
        (option_bytes (option_data option.now))) }
{
    match *option {
        BlockOption::Comment(text) => write_field(out, COMMENT, text),
        BlockOption::InterfaceName(name) => write_field(out, INTERFACE_NAME, name),
        BlockOption::TimeResolution(power) => write_field(out, TIME_RESOLUTION, &[power]),
        BlockOption::FcsLen(len) => write_field(out, FCS_LEN, &[len]),
        BlockOption::TimeOffset(seconds) => write_field(out, TIME_OFFSET, &seconds.to_le_bytes()),
        BlockOption::PacketFlags(flags) => write_field(out, PACKET_FLAGS, &flags.to_le_bytes()),
    }
}

/// Writes an option of this code and this value.
fn write_field<W: Write>(out: &mut W, code: u16, value: &[u8]) -> Result<(), BlockFault>
    requires { length value.now < 2 ^ 16 }
    ensures whole { OnOk result (Appends (W.contents out.old) (W.contents out.new)
        (option_bytes (option_of code value.now))) }
    ensures part { OnErr result (TakesStart (W.contents out.old) (W.contents out.new)
        (option_bytes (option_of code value.now))) }
{
    let [c0, c1] = code.to_le_bytes();
    let [l0, l1] = (value.len() as u16).to_le_bytes();
    write_bytes(out, &[c0, c1, l0, l1])?;
    write_padded(out, value)
}

/// Writes bytes and their padding.
fn write_padded<W: Write>(out: &mut W, bytes: &[u8]) -> Result<(), BlockFault>
    ensures whole { OnOk result (Appends (W.contents out.old) (W.contents out.new)
        (bytes.now ++ padding (length bytes.now))) }
    ensures part { OnErr result (TakesStart (W.contents out.old) (W.contents out.new)
        (bytes.now ++ padding (length bytes.now))) }
{
    write_bytes(out, bytes)?;
    write_bytes(out, padding(bytes.len()))
}

/// Writes bytes until all went out or the output failed.
#[tactic(auto, using(crate::proofs::BlockParts::more_taken))]
fn write_bytes<W: Write>(out: &mut W, bytes: &[u8]) -> Result<(), BlockFault>
    ensures whole { OnOk result (Appends (W.contents out.old) (W.contents out.new) bytes.now) }
    ensures part { OnErr result (TakesStart (W.contents out.old) (W.contents out.new) bytes.now) }
{
    let mut at = 0;
    'writes: while at < bytes.len() {
        match out.write(&bytes[at..]) {
            Ok(0) => return Err(BlockFault::Output),
            Ok(written) => at += written,
            Err(_) => return Err(BlockFault::Output),
        }
    }
    Ok(())
}

/// The bytes that are lacking behind `len` bytes until their number is a multiple of 4.
fn padding(len: usize) -> &'static [u8]
    ensures { result.now ≡ padding len }
{
    match len % 4 {
        0 => &[],
        1 => &[0; 3],
        2 => &[0; 2],
        _ => &[0],
    }
}

/// The number of bytes of `len` bytes and their padding.
fn padded_len(len: usize) -> usize
    requires { len + 3 < 2 ^ 64 }
    ensures { result ≡ padded_len len }
{
    len.div_ceil(4) * 4
}

/// The number of bytes of options.
fn options_len(options: &[BlockOption<'_>]) -> usize
    requires { length (options_bytes (options_data options.now)) < 2 ^ 32 }
    ensures { result ≡ length (options_bytes (options_data options.now)) }
{
    if options.is_empty() {
        return 0;
    }
    let mut len = END_OF_OPTIONS.len();
    'options: for option in options {
        len += OPTION_HEAD_LEN + padded_len(value_len(option));
    }
    len
}

/// The number of bytes of an option's value.
fn value_len(option: &BlockOption<'_>) -> usize
    ensures { result ≡ length (option_data option.now).value }
{
    match *option {
        BlockOption::Comment(text) => text.len(),
        BlockOption::InterfaceName(name) => name.len(),
        BlockOption::TimeResolution(_) | BlockOption::FcsLen(_) => 1,
        BlockOption::TimeOffset(_) => 8,
        BlockOption::PacketFlags(_) => 4,
    }
}
