//! A walk over the frames of a body that is read.
use crate::frames::decode::Frames;
use crate::frames::frame::ReadFrame;
use std::marker::Model;

/// The frames of a body that are still to come, one by one.
#[derive(Debug, Drop)]
pub struct FrameWalk<'a> {
    pub(crate) left: Frames<'a>,
}

impl<'a> Model for FrameWalk<'a> {
    ghost use Rattle.std.specs.Prelude.{List};
    ghost use Rattle.ch11_packet.specs.FramesRead.{ReadFrameData};

    ghost Value = { List ReadFrameData };

    ghost view = { λ w. w.left };
}

impl<'a> Iterator for FrameWalk<'a> {
    type Item = ReadFrame<'a>;

    ghost use Rattle.std.specs.Iterator.{YieldsFirstBy, item_count};
    ghost use Rattle.ch11_packet.specs.Views.{read_frame_data};

    // The next item is the first frame that is left.
    ghost next_gives = { YieldsFirstBy read_frame_data (λ walk. walk) };

    ghost remaining = { item_count (λ walk. walk) };

    fn next(&mut self) -> Option<ReadFrame<'a>> {
        self.left.take_first()
    }
}
