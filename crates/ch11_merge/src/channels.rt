//! The channels of a merge, and which of them comes next.

ghost use Rattle.std.specs.Prelude.{ℕ, ◌≡◌, ◌<◌, List, IfOk, IfNone, IfSome, All, length};
ghost use Rattle.std.specs.BinaryHeap.{heap_items, heap_len};
ghost use Rattle.ch11_merge.specs.declared.source.Head.TheVariants.{End};
ghost use Rattle.ch11_merge.specs.Placing.{IsLeastIn};
ghost use Rattle.ch11_merge.specs.Waiting.{AreStands, IsFirstOf, StandsAgain};

use crate::source::{Head, PieceFault, PieceSource};
use crate::waiting::Waiting;
use std::alloc::Global;
use std::cmp::Reverse;
use std::collections::BinaryHeap;
use std::marker::Model;

/// A channel, and the source of its pieces.
#[derive(Debug, Drop)]
pub struct MergedChannel<S> {
    /// The channel's ID.
    pub channel: u16,
    /// The source of its pieces.
    pub source: S,
}

/// The channels of a merge, and a heap of where their sources stand.
#[derive(Drop)]
pub struct MergedChannels<S: PieceSource> {
    pub(crate) channels: Vec<MergedChannel<S>>,
    pub(crate) waiting: BinaryHeap<Reverse<Waiting>>,
}

impl<S: PieceSource> Model for MergedChannels<S> {
    ghost use Rattle.std.specs.Prelude.{List, length};
    ghost use Rattle.std.specs.BinaryHeap.{heap_items};
    ghost use Rattle.ch11_merge.specs.declared.channels.MergedChannel.{MergedChannel};
    ghost use Rattle.ch11_merge.specs.Waiting.{AreStands};

    ghost Value = { List (MergedChannel S) };

    ghost view = { λ m. m.channels.items };

    ghost invariant = { λ m. AreStands S.stands m.channels.items
        (length m.channels.items) (heap_items m.waiting) };
}

impl<S: PieceSource + Drop> MergedChannels<S> {
    /// These channels.
    pub fn new(
        alloc: Global,
        channels: Vec<MergedChannel<S>>,
    ) -> Result<MergedChannels<S>, PieceFault>
        ensures { IfOk result (λ merged. merged ≡ channels.items) }
    {
        let mut waiting = BinaryHeap::new(alloc);
        'channels: for at in 0..channels.len() {
            let next = &channels[at];
            waiting.push(Reverse(Waiting {
                head: next.source.head(),
                channel: next.channel,
                at,
            }))?;
        }
        Ok(MergedChannels { channels, waiting })
    }
}

/// The index of the channel that has the next piece: `None` if none has one.
pub(crate) fn first_of<S: PieceSource>(
    channels: &[MergedChannel<S>],
    waiting: &BinaryHeap<Reverse<Waiting>>,
) -> Option<usize>
    requires { AreStands S.stands channels.now (length channels.now) (heap_items waiting.now) }
    ensures none { IfNone result (All (λ c. S.stands c.source ≡ Head.End) channels.now) }
    ensures least { IfSome result (λ at.
        IsLeastIn (λ c. S.stands c.source) (λ c. c.channel) channels.now at) }
    ensures within { IfSome result (λ at. at < length channels.now) }
    ensures first { IfSome result (λ at. IsFirstOf (heap_items waiting.now) at) }
{
    match waiting.peek() {
        Some(Reverse(first)) => match first.head {
            Head::End => None,
            _ => Some(first.at),
        },
        None => None,
    }
}

/// The source of the channel that is first stands here now.
pub(crate) fn stand_again(waiting: &mut BinaryHeap<Reverse<Waiting>>, head: Head)
    requires { 0 < heap_len waiting.old }
    ensures { StandsAgain head (heap_items waiting.old) (heap_items waiting.new) }
{
    match waiting.pop() {
        Some(Reverse(first)) => match waiting.push(Reverse(Waiting { head, ..first })) {
            Ok(()) => {}
            Err(_) => unreachable(),
        },
        None => unreachable(),
    }
}
