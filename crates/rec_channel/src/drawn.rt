//! What a draw gives: a frame's number, and the version in force at it.

ghost use Rattle.std.specs.Prelude.{◌≡◌};
ghost use Rattle.std.specs.Arc.{arc_value};

use bpf_verify::Verified;
use std::alloc::Global;
use std::sync::Arc;

/// A frame's number on its channel, and the version of the filter that is in force there.
#[derive(Debug, Drop)]
pub struct Drawn {
    /// The frame's number, from 0 on in the order in which the channel's frames were drawn.
    pub number: u64,
    /// The version in force: the index of its program in the channel's history.
    pub version: u32,
    /// The program of that version.
    pub program: Arc<Verified, Global>,
    /// A further share of the same program, for whoever keeps one.
    pub share: Arc<Verified, Global>,
    ghost equal: { arc_value program ≡ arc_value share },
}

/// What a draw gives to a caller that has the program of the last version that it knows of.
#[derive(Debug, Drop)]
pub enum DrawnSince {
    /// The frame's number. No version was installed since, so that last version is in force there.
    NoVersion(u64),
    /// The frame's number, and a version that was installed since.
    LaterVersion(Drawn),
}
