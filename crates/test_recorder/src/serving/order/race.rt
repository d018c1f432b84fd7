//! What is drawn for a recording whose callers stall at random.

ghost use Rattle.std.specs.Prelude.{◌≡◌, ◌≤◌, ◌<◌, [], false, IfOk};

use crate::serving::frames::{ACCEPT, Frames, REJECT, job};
use crate::serving::order::calls::{Caller, NotedControl, NotedFrames};
use crate::serving::order::channel::Setting;
use crate::serving::order::notes::Order;
use crate::serving::order::world::Settings;
use ch11_packet::MIN_LIMIT;
use rec_run::Job;
use std::alloc::Global;
use std::test::Fail;
use test_samples::program;

/// How many frames more than its ring has places a channel has at most.
const MORE_FRAMES: u64 = 6;

/// What is drawn for a recording.
#[derive(Clone, Copy, Debug)]
pub(super) struct Race {
    pub(super) ring: usize,
    /// Of each channel: its frames, how many it may have, and whether its first filter keeps them.
    frames: [u64; 2],
    most: [u64; 2],
    keeps: [bool; 2],
    changes: [Option<(u16, bool)>; 3],
    /// How many packets the output takes.
    pub(super) room: usize,
    seed: u64,
}

/// Numbers drawn from a seed.
#[derive(Drop)]
struct Draws {
    state: u64,
}

impl Draws {
    /// A number below this one.
    fn below(&mut self, bound: u64) -> u64
        requires { 0 < bound }
        ensures { result < bound }
    {
        self.state = self
            .state
            .wrapping_mul(6364136223846793005)
            .wrapping_add(1442695040888963407);
        (self.state >> 33) % bound
    }

    fn once_in(&mut self, times: u64) -> bool
        requires { 0 < times }
    {
        self.below(times) == 0
    }

    /// What a channel is to have: its frames, and how many it may have.
    fn frames(&mut self, ring: usize) -> (u64, u64) {
        let frames = self.below(MORE_FRAMES.saturating_add(ring as u64));
        if self.once_in(4) {
            (frames, self.below(frames.saturating_add(1)))
        } else {
            (frames, u64::MAX)
        }
    }

    fn change(&mut self) -> Option<(u16, bool)> {
        if self.once_in(2) {
            None
        } else {
            Some((u16::from(self.once_in(2)), self.once_in(2)))
        }
    }

    /// How many packets an output takes: most take all.
    fn room(&mut self) -> usize {
        if self.once_in(8) {
            self.below(6) as usize
        } else {
            usize::MAX
        }
    }
}

impl Race {
    /// The recording of a number.
    pub(super) fn drawn(seed: u64) -> Race
        ensures ring { (1 ≤ result.ring) × (result.ring ≤ 4) }
    {
        let mut draws = Draws { state: seed };
        let ring = draws.below(4).saturating_add(1) as usize;
        let (one, other) = (draws.frames(ring), draws.frames(ring));
        Race {
            ring,
            frames: [one.0, other.0],
            most: [one.1, other.1],
            keeps: [!draws.once_in(4), !draws.once_in(4)],
            changes: [draws.change(), draws.change(), draws.change()],
            room: draws.room(),
            seed,
        }
    }

    /// How the model's channels are set.
    pub(super) fn settings(&self) -> Settings {
        [self.setting(0), self.setting(1)]
    }

    /// Whether each frame of a channel is kept, whatever comes of the changes.
    pub(super) fn keeps_all(&self, at: usize) -> bool {
        let mut changed = self.changes.iter().flatten();
        self.keeps.get(at) == Some(&true) && !changed.any(|(index, _)| usize::from(*index) == at)
    }

    fn setting(&self, at: usize) -> Setting {
        let most = self.most.get(at).copied().unwrap_or(0);
        Setting {
            ring: u32::try_from(self.ring).unwrap_or(u32::MAX),
            most: u32::try_from(most).unwrap_or(u32::MAX),
            keeps: self.keeps.get(at).copied().unwrap_or(false),
        }
    }

    /// Who is called, with stalls of its own.
    pub(super) fn caller(&self, alloc: Global, order: &Order, number: u64) -> Result<Caller, Fail> {
        let seed = self.seed.wrapping_mul(8).wrapping_add(number);
        Caller::new(alloc, order, seed)
    }

    /// The job of the channel at an index.
    pub(super) fn job(
        &self,
        alloc: Global,
        order: &Order,
        at: usize,
    ) -> Result<Job<Frames<NotedFrames>>, Fail> {
        let (Some(frames), Some(most)) = (self.frames.get(at), self.most.get(at)) else {
            return Err("a channel".into());
        };
        let keeps = self.keeps.get(at) == Some(&true);
        let lengths = NotedFrames {
            caller: self.caller(alloc, order, at as u64)?,
            channel: at,
            frames: *frames as usize,
            given: 0,
        };
        let listing = if keeps { ACCEPT } else { REJECT };
        let id = if at == 0 { 1 } else { 2 };
        let mut job = job(alloc, id, listing, MIN_LIMIT, lengths)?;
        job.max = *most;
        Ok(job)
    }

    /// The control, which gives the changes.
    pub(super) fn control(&self, alloc: Global, order: &Order) -> Result<NotedControl, Fail>
        ensures given { IfOk result (λ c. c.log.given ≡ []) }
        ensures told { IfOk result (λ c. c.log.answered ≡ []) }
        ensures goes_on { IfOk result (λ c. c.log.ended ≡ false) }
    {
        let mut changes = Vec::new(alloc);
        for change in self.changes {
            if let Some(change) = change {
                changes.push(change)?;
            }
        }
        let filters = [program(alloc, REJECT)?, program(alloc, ACCEPT)?];
        let caller = self.caller(alloc, order, 2)?;
        Ok(NotedControl::new(alloc, caller, changes, filters))
    }
}
