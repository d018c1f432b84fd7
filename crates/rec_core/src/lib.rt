//! The recorder's core: the recorder as a machine over events. A [`World`] has the channels of a
//! recording and the one writer, and does one event after another: a frame is taken, a program
//! installed, a piece sent into its channel's ring or written, a channel closed. Every interleaving
//! of a recorder's threads is one list of such events.
#![tactic(auto)]

mod channel;
mod event;
mod fault;
mod laws;
mod reply;
mod ring;
mod run;
mod spec;
mod world;

pub use event::Event;
pub use fault::CoreFault;
pub use laws::{
    a_failed_output_is_cut_in_one_piece, a_recorder_comes_to_its_end, a_recording_is_a_run,
    a_run_that_ended_is_a_recording, a_run_writes_each_channel_in_order,
    an_ended_world_holds_its_recording, any_frame_can_be_offered,
    buffers_are_neither_lost_nor_doubled, buffers_refuse_no_frame, no_channel_stands_still,
    no_worker_waits_for_a_failed_output, steps_with_buffers_are_a_run,
};
pub use rec_channel::MAX_RING;
pub use reply::{Reply, Which};
pub use run::run_world;
pub use spec::{ChannelSpec, are_distinct, specs_ok};
pub use world::World;
