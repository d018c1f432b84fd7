//! A caller of `ch11_index`, as its page has it.

ghost use Rattle.std.specs.Prelude.{◌≡◌, ◌+◌, ◌<◌, ◌^◌, None};
ghost use Rattle.ch11_index.specs.FileIndex.{due};

use ch11_index::{FilePacket, Index};
use std::alloc::{AllocError, Global};

/// Names a packet that went out, and gives the body of the packet of the index that is due behind it.
pub fn body_behind(
    alloc: Global,
    index: &mut Index,
    packet: FilePacket,
) -> Result<Option<Vec<u8>>, AllocError>
    requires none_due { due index.old ≡ None }
    requires room { index.old.place + packet.len < 2 ^ 64 }
{
    index.note(packet);
    let mut body = Vec::new(alloc);
    let Some(due) = index.due() else {
        return Ok(None);
    };
    index.add_body(due, &mut body)?;
    Ok(Some(body))
}
