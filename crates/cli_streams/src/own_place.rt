//! Refusals of several recordings, with places in the recording that they are of.

ghost use Rattle.std.specs.Prelude.{◌≡◌, MatchOption};
ghost use Rattle.cli_streams.specs.OwnPlaces.{IsBehindAll, IsOwnPlace, refused_as, refused_at};

use rec_whole::WholeRefusal;

/// Where a place of the joined recording stands: the place of the recording that has it, and the place there. Each
/// recording ends where it is said. `None` where none has it.
pub(crate) fn own_place(ends: &[u64], at: u64) -> Option<(usize, u64)>
    ensures { MatchOption result (IsBehindAll ends.now at)
        (λ own. IsOwnPlace ends.now at own.0 own.1) }
{
    let mut start = 0;
    'ends: for place in 0..ends.len() {
        if at < ends[place] {
            return Some((place, at - start));
        }
        start = ends[place];
    }
    None
}

/// The place of the packet that is refused, if it is one.
pub(crate) fn refused_at(refusal: WholeRefusal) -> Option<u64>
    ensures { result ≡ refused_at refusal }
{
    match refusal {
        WholeRefusal::Other { at } | WholeRefusal::Disorder { at } | WholeRefusal::Gap { at } => {
            Some(at)
        }
        WholeRefusal::Origin | WholeRefusal::Year | WholeRefusal::Full => None,
    }
}

/// The same refusal, of a packet at another place.
pub(crate) fn refused_as(refusal: WholeRefusal, at: u64) -> WholeRefusal
    ensures { result ≡ refused_as refusal at }
{
    match refusal {
        WholeRefusal::Other { .. } => WholeRefusal::Other { at },
        WholeRefusal::Disorder { .. } => WholeRefusal::Disorder { at },
        WholeRefusal::Gap { .. } => WholeRefusal::Gap { at },
        WholeRefusal::Origin => WholeRefusal::Origin,
        WholeRefusal::Year => WholeRefusal::Year,
        WholeRefusal::Full => WholeRefusal::Full,
    }
}
