//! Which channel IDs are taken.

ghost use Rattle.std.specs.Prelude.{◌≡◌, ◌^◌, false, [], IfOk, MatchOption, get_or, length};
ghost use Rattle.ch11_channels.specs.FreeIds.{AreAllTaken, IsLeastFree};
ghost use Rattle.ch11_channels.specs.GivenIds.{AreTakenIds};

use crate::channels::RunChannel;
use std::alloc::{AllocError, Global};

/// How many channel IDs there are, with 0, which no channel has.
const IDS: usize = 1 << 16;

/// A table of all channel IDs, in which those are taken that recordings name.
pub(crate) fn taken_ids(alloc: Global, named: &[RunChannel]) -> Result<Vec<bool>, AllocError>
    ensures { IfOk result (λ taken. AreTakenIds taken.items named.now []) }
{
    let mut taken = vec![in alloc; false; IDS]?;
    'named: for of in named {
        taken[usize::from(of.channel)] = true;
    }
    Ok(taken)
}

/// The least ID from 1 on that isn't taken.
pub(crate) fn free_id(taken: &[bool]) -> Option<u16>
    requires { length taken.now ≡ 2 ^ 16 }
    ensures { MatchOption result (AreAllTaken (λ id. get_or taken.now id false))
        (IsLeastFree (λ id. get_or taken.now id false)) }
{
    'ids: for id in 1..=u16::MAX {
        if !taken[usize::from(id)] {
            return Some(id);
        }
    }
    None
}
