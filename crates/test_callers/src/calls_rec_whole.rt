//! A caller of `rec_whole`, as its page has it.

use ch11_clock::Clock;
use ch11_index::MOST_NAMED;
use rec_pieces::{PacketsAt, PieceListing};
use rec_whole::{FileNames, WholeEnd, write_whole_file};
use std::alloc::Global;

/// The whole file of a recording, in memory, whose channels have no names.
pub fn whole_file_of<P: PacketsAt>(
    alloc: Global,
    packets: &P,
    listing: &PieceListing,
    clock: &Clock,
) -> Result<Vec<u8>, WholeEnd> {
    let names = FileNames {
        host: "recorder",
        program: "flight 17",
        is_external: false,
        channels: &[],
        attributes: &[],
    };
    let mut bytes = Vec::new(alloc);
    write_whole_file(
        alloc, packets, listing, &names, clock, MOST_NAMED, &mut bytes,
    )?;
    Ok(bytes)
}
