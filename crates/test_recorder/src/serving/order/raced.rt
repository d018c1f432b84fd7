//! Recorders whose sources, control and output stall at random.

ghost use Rattle.std.specs.Prelude.{◌≤◌};

use crate::serving::frames::Frames;
use crate::serving::order::calls::{NotedControl, NotedFrames};
use crate::serving::order::notes::{Note, in_order};
use crate::serving::order::output::NotedOutput;
use crate::serving::order::race::Race;
use crate::serving::order::search::{Verdict, verdict_of};
use crate::serving::signals::Watch;
use rec_run::{ChannelReport, Done, RunFault, jobs_ok, record};
use std::alloc::Global;
use std::sync::atomic::AtomicU64;
use std::sync::{Arc, Wait};
use std::test::Fail;
use std::thread::Threads;
use test_samples::assert_same;

/// How many recordings are raced, in how many rounds.
const ROUNDS: u64 = 30;

const RACES: u64 = 100;

/// Records so; what is noted.
fn noted<R: Threads + Wait + Sync>(
    threads: &R,
    alloc: Global,
    race: &Race,
) -> Result<Vec<Note>, Fail>
    requires { (1 ≤ race.now.ring) × (race.now.ring ≤ 4096) }
{
    let order = Arc::new(alloc, AtomicU64::new(0))?;
    let mut jobs = Vec::new(alloc);
    jobs.push(race.job(alloc, &order, 0)?)?;
    jobs.push(race.job(alloc, &order, 1)?)?;
    let control = race.control(alloc, &order)?;
    let out = NotedOutput::new(alloc, race.caller(alloc, &order, 3)?, race.room);
    if !jobs_ok(jobs.as_slice()) {
        return Err("jobs that may be recorded".into());
    }
    match record(threads, alloc, jobs, race.ring, 8, control, out) {
        Ok(
            Done {
                report,
                control,
                out,
            },
        ) => list_of(alloc, report.channels.as_slice(), &control, &out),
        Err(
            RunFault::Write {
                report,
                control,
                out,
                ..
            },
        ) => list_of(alloc, report.channels.as_slice(), &control, &out),
        Err(_) => Err("a recording that ends, or whose output failed".into()),
    }
}

/// What all who were called noted.
fn list_of(
    alloc: Global,
    channels: &[ChannelReport<Frames<NotedFrames>>],
    control: &NotedControl,
    out: &NotedOutput,
) -> Result<Vec<Note>, Fail> {
    let mut all = Vec::new(alloc);
    for channel in channels {
        all.push(channel.source.lengths.caller.notes())?;
    }
    all.push(control.caller.notes())?;
    all.push(out.caller.notes())?;
    in_order(alloc, all.as_slice())
}

/// What the races came to.
#[derive(Default, Drop)]
struct Seen {
    /// For each size of the rings, for how many frames a source at most was asked, of which all are
    /// kept, before the output had taken a packet.
    asked: [usize; 4],
    flushed: u64,
    failed: u64,
    /// Changes that came into force between frames.
    told: u64,
}

impl Seen {
    /// Adds what is noted of a recording.
    fn add(&mut self, race: &Race, notes: &[Note]) {
        for note in notes {
            match note {
                Note::Flushed => self.flushed = self.flushed.saturating_add(1),
                Note::Failed => self.failed = self.failed.saturating_add(1),
                Note::Told { mark, .. } if *mark > 0 => self.told = self.told.saturating_add(1),
                _ => {}
            }
        }
        for channel in [0, 1] {
            if race.keeps_all(channel) {
                let before = notes
                    .iter()
                    .take_while(|note| !matches!(note, Note::Written(..)));
                let asked = before.filter(|note| **note == Note::Asked(channel)).count();
                if let Some(most) = self.asked.get_mut(race.ring.saturating_sub(1)) {
                    *most = asked.max(*most);
                }
            }
        }
    }
}

/// Races a round of recordings. The model allows what is noted of each, to its end.
fn race_round<R: Threads + Wait + Sync>(
    threads: &R,
    rt: HostRuntime,
    round: u64,
    seen: &mut Seen,
) -> Result<(), Fail> {
    for number in 0..RACES {
        let race = Race::drawn(round.saturating_mul(RACES).saturating_add(number));
        let notes = noted(threads, rt.alloc(), &race)?;
        let notes = notes.as_slice();
        let verdict = verdict_of(rt.alloc(), race.settings(), notes)?;
        if verdict != Verdict::Allowed {
            return Err(format!(in rt.alloc(); "{verdict:?}: {race:?} {notes:?}")?.into());
        }
        let has_failed = notes.contains(&Note::Failed);
        if !has_failed && notes.last() != Some(&Note::Flushed) {
            return Err(format!(in rt.alloc(); "no end: {race:?} {notes:?}")?.into());
        }
        seen.add(&race, notes);
    }
    Ok(())
}

/// What is noted of raced recordings is what the model does, and comes to its ends: full rings, changes
/// between frames, outputs that fail, and recordings that end.
#[test]
fn a_recorder_does_what_its_model_allows(rt: HostRuntime) -> Result<(), Fail> {
    let mut seen = Seen::default();
    for round in 0..ROUNDS {
        let watch = Watch::begin(rt, rt.alloc())?;
        let outcome = race_round(&rt, rt, round, &mut seen);
        watch.end(&rt);
        outcome?;
    }
    assert_same!(rt; seen.asked, [3, 4, 5, 6]);
    assert!(rt; seen.flushed > 2_000 && seen.failed > 100 && seen.told > 500);
    Ok(())
}
