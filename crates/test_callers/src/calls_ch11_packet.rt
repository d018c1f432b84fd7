//! A caller of `ch11_packet`, as its page has it.

use ch11_packet::{DataBody, DataBuilder, ETHERNET_DATA, Header, Limit, write_packet, written_len};
use eth_frame::Frame;
use std::alloc::{AllocError, Global};
use std::io::Write;

/// The body of this one frame.
pub fn body(alloc: Global, frame: &Frame<'_>) -> Result<Option<DataBody>, AllocError> {
    let Some(limit) = Limit::new(65_536) else {
        return Ok(None);
    };
    let mut builder = DataBuilder::with_limit(alloc, limit, 0, 3)?;
    builder.push(frame);
    Ok(Some(builder.seal()))
}

/// Writes it as a packet of channel 1; whether all of it went out.
pub fn send<W: Write>(out: &mut W, body: &DataBody) -> bool {
    let len = body.bytes().len();
    let whole = written_len(len) as u32;
    match Header::new(1, whole, len as u32, 8, 0, 3, ETHERNET_DATA, body.counter()) {
        Some(header) => write_packet(out, &header, body.bytes(), body.sum()).is_ok(),
        None => false,
    }
}
