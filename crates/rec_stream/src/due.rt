//! Which time packet is due.

ghost use Rattle.std.specs.Prelude.{ℕ, ◌≡◌, ◌<◌, ◌^◌, List, IfSome, IfNone};
ghost use Rattle.ch11_clock.specs.declared.origin.Origin.{Origin};
ghost use Rattle.ch11_file.specs.FileTimes.{tick_of};
ghost use Rattle.rec_stream.specs.StreamBlocks.{IsLastDue};
ghost use Rattle.rec_stream.specs.Sending.{IsWalking};

use ch11_clock::TimePoint;
use ch11_file::FileTimes;

/// The last of the time packets that are still to come and not behind a counter: they are left out, but for this.
pub(crate) fn last_due(times: &mut FileTimes<'_>, counter: u64) -> Option<TimePoint>
    requires counter { counter < 2 ^ 48 }
    requires fits { IfSome times.old.next (λ point. point.tick < 2 ^ 48) }
    ensures some { IfSome result (λ point. (rules : List Origin) (least time : ℕ)
        → IsWalking rules least time times.old
        → IsLastDue rules least time counter point.moment point.tick
        × IsWalking rules least point.tick times.new) }
    ensures none { IfNone result (times.new ≡ times.old) }
    ensures early { (rules : List Origin) (least time : ℕ) → IsWalking rules least time times.old
        → counter < tick_of times.new.next }
    ensures fits { IfSome times.new.next (λ point. point.tick < 2 ^ 48) }
    ensures tick { IfSome result (λ point. point.tick < 2 ^ 48) }
{
    let mut last = None;
    // Each lies at least a tick behind the one ahead of it.
    'due: for _at in times.tick()..counter + 1 {
        let Some(point) = times.next() else {
            return last;
        };
        if counter < point.tick {
            return last;
        }
        times.advance();
        last = Some(point);
    }
    last
}
