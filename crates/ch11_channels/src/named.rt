//! The channels that the recordings of a file name.

ghost use Rattle.std.specs.Prelude.{◌≡◌, ◌++◌, IfOk, OnOk};
ghost use Rattle.std.specs.List.{flat_map};
ghost use Rattle.ch11_channels.specs.NamedIds.{named_by_recording};

use crate::channels::RunChannel;
use std::alloc::{AllocError, Global};

/// What a recording names.
#[derive(Clone, Copy, Debug)]
pub struct NamedIds<'a> {
    /// The run that it is of.
    pub run: usize,
    /// The IDs of its channels, the least first.
    pub ids: &'a [u16],
}

/// The channels that recordings name, in the order of the recordings and then of the IDs.
pub fn named_channels(
    alloc: Global,
    recordings: &[NamedIds<'_>],
) -> Result<Vec<RunChannel>, AllocError>
    ensures { IfOk result (λ named. named.items ≡ flat_map named_by_recording recordings.now) }
{
    let mut named = Vec::new(alloc);
    'recordings: for recording in recordings {
        add_named(&mut named, recording)?;
    }
    Ok(named)
}

/// Adds those of a recording.
fn add_named(named: &mut Vec<RunChannel>, recording: &NamedIds<'_>) -> Result<(), AllocError>
    ensures { OnOk result (named.new.items ≡ named.old.items ++ named_by_recording recording.now) }
{
    'ids: for id in recording.ids {
        named.push(RunChannel {
            run: recording.run,
            channel: *id,
        })?;
    }
    Ok(())
}
