//! Laws of values, whose types are what the other laws ask of their numbers.

ghost use Rattle.rec_core.specs.Views.{channel_spec_data, event_data};
ghost use Rattle.rec_theorem.specs.Events.{IsSpec, IsEvent};

use rec_core::{ChannelSpec, Event};
use rec_run::{a_count_is_in_range, a_lane_is_in_range};

/// Law: the numbers of what a channel of a core is set to are in range by their types.
pub fn a_spec_is_in_range(spec: &ChannelSpec)
    ensures { IsSpec (channel_spec_data spec.now) }
{
    a_lane_is_in_range(spec.lane);
    a_count_is_in_range(spec.max);
}

/// Law: the frame of an event is a frame.
pub fn an_event_is_in_range(event: &Event)
    ensures { IsEvent (event_data event.now) }
{
    if let Event::Take { frame, .. } = event {
        let _frame = frame.frame();
    }
}
