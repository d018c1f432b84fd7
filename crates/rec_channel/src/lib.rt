//! Which filter program is in force on a channel. A [`Slot`] is the history of one channel: the
//! programs that were installed, the frames at which they came into force, and the count of frames
//! that were drawn. A [`SharedSlot`] is a slot behind a lock, for a worker that draws frames while
//! programs are installed.
#![tactic(auto)]

mod drawn;
mod fault;
mod front;
mod installed;
mod laws;
mod limits;
mod parts;
mod shared;
mod slot;

pub use drawn::{Drawn, DrawnSince};
pub use fault::{DrawFault, InstallFault};
pub use front::Front;
pub use installed::Installed;
pub use laws::{
    later_versions_leave_the_past, one_version_is_in_force, the_first_front, the_most_versions,
};
pub use limits::{MAX_CHANNELS, MAX_RING, MAX_VERSIONS};
pub use parts::Parts;
pub use shared::SharedSlot;
pub use slot::Slot;
