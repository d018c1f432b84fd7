//! The export of a recording: the frames of all channels as one pcapng file, packet by packet.
#![tactic(auto)]

mod exporter;
mod fault;
mod frame;
mod interface;
mod laws;
mod recording;
mod version;

pub use exporter::Exporter;
pub use fault::{ExportEnd, ExportFault};
pub use laws::{
    an_export_is_read_as_its_blocks, an_export_shows_its_recording,
    an_interface_shows_the_frames_of_its_channel,
};
pub use recording::export_recording;
