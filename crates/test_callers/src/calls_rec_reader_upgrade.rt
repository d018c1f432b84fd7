//! A caller of `rec_reader`, as its page has it.

use rec_reader::{ReadEnd, Reader, UpgradeFault, Upgraded, upgrade_packet};
use std::io::{Read, Write};

/// Why a recording isn't upgraded.
#[derive(Drop)]
pub enum Fault {
    Read(ReadEnd),
    Write(UpgradeFault),
}

/// Writes the upgrade of what the reader gives, and counts its packets.
pub fn upgraded<R: Read, W: Write>(reader: &mut Reader<R>, out: &mut W) -> Result<Upgraded, Fault> {
    let mut counts = Upgraded {
        packets: 0,
        copied: 0,
    };
    for _ in 0..u64::MAX {
        let Some(packet) = reader.next().map_err(|end| Fault::Read(end))? else {
            break;
        };
        let written = upgrade_packet(&packet.packet(), out, &mut counts);
        written.map_err(|fault| Fault::Write(fault))?;
    }
    Ok(counts)
}
