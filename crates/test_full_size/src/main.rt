//! One recording at full size, made once and read in every way: 64 channels at both limits, of which
//! one has 1,024 versions that are all met, one over 100,000 frames, one as many frames in a packet as
//! there can be, one the longest, and one none. And a small one through the longest ring of the greatest
//! packets. What is read is compared with what was fed. Last, the index of a whole file that has more nodes
//! than a root names.
#![tactic(auto)]

mod changes;
mod channel;
mod extracting;
mod feed;
mod filters;
mod indexing;
mod jobs;
mod making;
mod naming;
mod reading;
mod steps;
mod streaming;
mod telling;

use channel::Channels;
use making::{Made, recorded};
use naming::name_all;
use reading::{find_in, read_in_every_way};
use rec_channel::{MAX_CHANNELS, MAX_RING};
use telling::{count_told, tell};

/// How many pieces a channel's ring has room for.
const RING: usize = 8;

/// All channels.
const ALL: Channels = Channels {
    first: 0,
    end: MAX_CHANNELS as u16,
};

/// The channel with the longest frames in the greatest packets.
const LONGEST: Channels = Channels { first: 3, end: 4 };

fn main(rt: HostRuntime) -> Result<(), &'static str> {
    let made = recorded(&rt, rt, ALL, RING);
    let is_so = compare(rt, made.as_ref());
    let made = recorded(&rt, rt, LONGEST, MAX_RING);
    let is_so = is_so && compare_wide(rt, made.as_ref());
    if is_so
        && tell(
            rt,
            "named all packets of a file of ",
            name_all(rt.alloc()),
            " bytes\n",
        )
    {
        Ok(())
    } else {
        Err("the next line has no number: what is told or read there is not what was fed")
    }
}

/// Compares a recording of all channels with what they were fed, by a line for what was recorded, and
/// one for each way to read it: whether each line has its number.
fn compare(rt: HostRuntime, made: Option<&Made>) -> bool {
    let Some(made) = made else {
        return false;
    };
    tell(rt, "recorded ", count_told(ALL, made), " channels\n")
        && tell(rt, "", Some(made.report.pieces), " packets, ")
        && tell(rt, "", Some(made.out.len() as u64), " bytes\n")
        && read_in_every_way(rt, ALL, made.out.as_slice())
}

/// Compares a recording with the most room that settings can ask for with what its channel was fed, by
/// a line: whether it has its number.
fn compare_wide(rt: HostRuntime, made: Option<&Made>) -> bool {
    let Some(made) = made else {
        return false;
    };
    let found = find_in(rt.alloc(), LONGEST, made.out.as_slice());
    let behind = " frames through the longest ring of the greatest packets\n";
    count_told(LONGEST, made).is_some() && tell(rt, "recorded ", found, behind)
}
