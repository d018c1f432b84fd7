//! What a caller of a shared slot knows of it.

ghost use Rattle.std.specs.Prelude.{◌↔◌, IsTrue};

/// What a caller of a [`SharedSlot`](crate::SharedSlot) knows of it: both counts only ever grow, so
/// a slot that has less than a caller's front isn't the slot that the caller has seen.
#[derive(Clone, Copy, Debug, PartialEq, Eq)]
pub struct Front {
    /// How many versions the slot had.
    pub versions: u32,
    /// How many frames were drawn.
    pub offered: u64,
}

impl Front {
    ghost use Rattle.rec_channel.specs.Fronts.{IsBelow};

    /// Of whoever has seen nothing yet.
    pub const START: Front = Front {
        versions: 0,
        offered: 0,
    };

    /// Whether one of the two counts is below the known one.
    pub(crate) fn is_below(self, known: &Front) -> bool
        ensures below { IsTrue result ↔ IsBelow self known.now }
    {
        self.versions < known.versions || self.offered < known.offered
    }
}
