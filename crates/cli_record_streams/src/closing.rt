//! A source that closes what it reads from.

ghost use Rattle.std.specs.Prelude.{◌≡◌, ◌<◌, IfSome, None, Some};
ghost use Rattle.std.specs.Option.{ForSome};
ghost use Rattle.eth_frame.specs.declared.source.SourceEnding.TheVariants.{Fault};
ghost use Rattle.eth_frame.specs.declared.source.SourceFault.TheVariants.{Device};
ghost use Rattle.cli_record_streams.specs.Closing.{at_most, source_of, left_of, failures_of, ending_of};

use eth_frame::{FrameBuf, FrameSource, Next, SourceEnding, SourceFault};
use std::snapshot::Snapshot;

/// What a closing source has.
#[derive(Drop)]
enum Held<S: Drop> {
    /// The source, which goes on: after the next frame, `further` more may follow.
    Open {
        source: S,
        further: u64,
    },
    /// Nothing, since the source is closed; and how it ended, if that was asked. A clause sees the
    /// source as it was last.
    Closed {
        was: Snapshot<S>,
        ending: Option<SourceEnding>,
    },
}

/// The first frames of a source. The source is closed with the last of them, and where it ends, so
/// that whoever writes into its pipe is told so at once.
#[derive(Drop)]
pub struct ClosingSource<S: FrameSource + Drop> {
    held: Held<S>,
    ghost open: { ForSome (source_of held) (λ source. S.ending source ≡ None) },
    ghost failed: { ending_of held ≡ Some (Fault Device) → 0 < failures_of S.failures held },
}

impl<S: FrameSource + Drop> ClosingSource<S> {
    /// The first `max` frames of a source that goes on.
    #[tactic(auto, using(crate::proofs::ClosingTimes::none_of))]
    pub fn new(source: S, max: u64) -> ClosingSource<S>
        requires { S.ending source ≡ None }
        ensures left { IfSome (S.left source)
            (λ left. left_of S.left result.held ≡ Some (at_most max left)) }
        ensures failures { failures_of S.failures result.held ≡ S.failures source }
        ensures open { ending_of result.held ≡ None }
    {
        let held = match max.checked_sub(1) {
            Some(further) => Held::Open { source, further },
            None => Held::Closed {
                was: Snapshot::of(&source),
                ending: None,
            },
        };
        ClosingSource { held }
    }
}

impl<S: FrameSource + Drop> FrameSource for ClosingSource<S> {
    ghost left = { λ s. left_of S.left s.held };

    ghost failures = { λ s. failures_of S.failures s.held };

    ghost ending = { λ s. ending_of s.held };

    #[tactic(auto, using(crate::proofs::ClosingTimes::first_on, crate::proofs::ClosingTimes::first_last, crate::proofs::ClosingTimes::time_on))]
    fn next(&mut self, buffer: &mut FrameBuf) -> Result<Next, SourceFault> {
        match &mut self.held {
            Held::Open { source, further } => {
                let answer = source.next(buffer);
                // a time mark is no frame, and more may follow
                if let Ok(Next::Time(_)) = answer {
                    return answer;
                }
                let ending = SourceEnding::of(answer);
                match further.checked_sub(1) {
                    Some(rest) if ending.is_none() => *further = rest,
                    _ => {
                        let was = Snapshot::of(source);
                        self.held = Held::Closed { was, ending };
                    }
                }
                answer
            }
            Held::Closed { ending, .. } => {
                buffer.clear();
                let last = ending.unwrap_or(SourceEnding::End);
                *ending = Some(last);
                last.answer()
            }
        }
    }

    ghost use Rattle.cli_record_streams.specs.ClosingLaws.{left_once_closed, failed_once_closed};

    ghost nothing_left = { λ s last e. left_once_closed S.left s.held last e };

    ghost device_failed = { λ s.
        failed_once_closed S.left S.failures s.held s.failed S.device_failed };
}
