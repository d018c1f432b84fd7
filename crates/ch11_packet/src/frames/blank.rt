//! An empty buffer for a body of Ethernet data.
use crate::header::HEADER_LEN;
use crate::limit::Limit;
use std::alloc::{AllocError, Global};
use std::marker::Model;

/// An empty buffer for a body of Ethernet data, with room for all that its limit allows. A body's
/// buffer comes back as one, so that the next body takes no memory.
#[derive(Debug, Drop)]
pub struct Blank {
    pub(crate) bytes: Vec<u8>,
    pub(crate) limit: Limit,
}

impl Model for Blank {
    ghost use Rattle.std.specs.Prelude.{ℕ};
    ghost use Rattle.std.specs.Vec.{vec_capacity};
    ghost use Rattle.ch11_packet.specs.Building.{IsBlank};

    ghost Value = { ℕ };

    ghost view = { λ b. b.limit };

    ghost invariant = { λ b. IsBlank b.limit (vec_capacity b.bytes) b.bytes.items };
}

impl Blank {
    ghost use Rattle.std.specs.Prelude.{◌≡◌, IfOk};

    /// A buffer with room for all that this limit allows.
    pub fn with_limit(alloc: Global, limit: Limit) -> Result<Blank, AllocError>
        ensures limit { IfOk result (λ blank. blank ≡ limit) }
    {
        let bytes = Vec::with_capacity(alloc, limit.get() as usize - HEADER_LEN)?;
        Ok(Blank { bytes, limit })
    }

    /// The limit for which there is room.
    pub fn limit(&self) -> Limit
        ensures limit { result ≡ self.now }
    {
        self.limit
    }
}
