//! A caller of `rec_lane`, as its page has it.

ghost use Rattle.std.specs.Prelude.{◌≡◌};

use eth_frame::Frame;
use rec_channel::Slot;
use rec_lane::{Lane, Offered};

/// Draws a frame's number and filter from its channel's slot, and offers the frame to the lane,
/// which has met all frames that were drawn before.
pub fn take(slot: &mut Slot, lane: &mut Lane, frame: &Frame<'_>) -> Result<Offered, anyhow::Error>
    requires { slot.old.offered ≡ lane.old.offered }
{
    lane.ready()?;
    let drawn = slot.draw()?;
    Ok(lane.offer(frame, drawn))
}
