//! A channel's slot: the history of its programs, and the count of its frames.

ghost use Rattle.std.specs.Prelude.{◌≡◌, ◌+◌, ◌-◌, ◌^◌, ◌<◌, ◌≤◌, ◌↔◌, length, map, IsTrue, IsFalse, Some, slice_get, IfOk, IfErr, OnErr};
ghost use Rattle.std.specs.Arc.{arc_value};
ghost use Rattle.rec_channel.specs.History.{IsHistory, InForce};
ghost use Rattle.rec_channel.specs.Slots.{programs_in, marks_in, versions_of, opening_slot, one_frame_later, with_version};

use crate::drawn::Drawn;
use crate::fault::{DrawFault, InstallFault};
use crate::front::Front;
use crate::installed::Installed;
use crate::limits::MAX_VERSIONS;
use crate::parts::Parts;
use bpf_verify::Verified;
use std::alloc::{AllocError, Global};
use std::marker::Model;
use std::sync::Arc;

/// The filter of one channel: the history of its versions, and how many frames met them. It takes
/// its memory when it is made, and none later.
#[derive(Debug, Drop)]
pub struct Slot {
    programs: Vec<Arc<Verified, Global>>,
    marks: Vec<u64>,
    offered: u64,
    max: u64,
}

impl Model for Slot {
    ghost use Rattle.std.specs.Prelude.{map};
    ghost use Rattle.std.specs.Vec.{vec_capacity};
    ghost use Rattle.std.specs.Arc.{arc_value};
    ghost use Rattle.rec_channel.specs.Slots.{SlotState, IsSlot, slot_of};

    ghost Value = { SlotState };

    ghost view = { λ s. slot_of (map arc_value s.programs.items) s.marks.items s.offered s.max };

    ghost invariant = { λ s.
        IsSlot (map arc_value s.programs.items) s.marks.items (vec_capacity s.programs)
        (vec_capacity s.marks) s.offered s.max };
}

impl Slot {
    ghost use Rattle.rec_channel.specs.Fronts.{IsNotStale, InstallIsNotStale, GivesBack};

    /// A channel whose first version is this program, and which may have `max` frames; no frame was
    /// drawn yet.
    pub fn new(alloc: Global, program: Arc<Verified, Global>, max: u64) -> Result<Slot, AllocError>
        ensures opening { IfOk result (λ s. s ≡ opening_slot (arc_value program) max) }
    {
        // a verified program is valid, as the history says of it
        let _ = program.insns();
        let mut programs = Vec::with_capacity(alloc, MAX_VERSIONS)?;
        let mut marks = Vec::with_capacity(alloc, MAX_VERSIONS)?;
        programs.push_reserved(program);
        marks.push_reserved(0);
        Ok(Slot {
            programs,
            marks,
            offered: 0,
            max,
        })
    }

    /// Counts a frame, and gives the version in force at it, which is the last one.
    ///
    /// # Errors
    ///
    /// [`DrawFault::CountFull`] exactly where as many frames were drawn as the channel may have;
    /// [`DrawFault::Memory`] where the program has too many shares. It is never
    /// [`DrawFault::Stale`].
    #[tactic(auto, using(crate::proofs::Histories::last_version))]
    pub fn draw(&mut self) -> Result<Drawn, DrawFault>
        // The frame drawn: its number, and the version in force at it.
        ensures number { IfOk result (λ d. d.number ≡ self.old.offered) }
        ensures last { IfOk result (λ d. d.version + 1 ≡ length self.old.history) }
        ensures program { IfOk result (λ d.
            slice_get (programs_in self.old.history) d.version ≡ Some (arc_value d.program)) }
        ensures in_force { IfOk result (λ d. InForce self.new.history d.number d.version) }
        ensures few { IfOk result (λ d. (d.number < 2 ^ 64 - 1) × (d.version < MAX_VERSIONS)) }
        // The slot after a frame: there was room for it, and it is counted.
        ensures room { IfOk result (λ _. self.old.offered < self.old.max) }
        ensures counted { IfOk result (λ _. self.new ≡ one_frame_later self.old) }
        // Why none was drawn; the slot stays.
        ensures full { IfErr result (λ e.
            (e ≡ DrawFault.CountFull) ↔ (self.old.offered ≡ self.old.max)) }
        ensures fault { IfErr result IsNotStale }
        ensures refused { OnErr result (self.new ≡ self.old) }
    {
        if self.is_full() {
            return Err(DrawFault::CountFull);
        }
        let last = self.programs.len() - 1;
        let program = Arc::try_clone(&self.programs[last])?;
        let share = Arc::try_clone(&program)?;
        let number = self.draw_number()?;
        Ok(Drawn {
            number,
            version: last as u32,
            program,
            share,
        })
    }

    /// [`Slot::draw`] for whoever has the program of the last version: the frame's number alone.
    ///
    /// # Errors
    ///
    /// [`DrawFault::CountFull`] exactly where as many frames were drawn as the channel may have,
    /// and no other.
    #[tactic(auto, using(crate::proofs::Histories::last_version))]
    pub(crate) fn draw_number(&mut self) -> Result<u64, DrawFault>
        // The frame drawn: its number, at which the last version is in force.
        ensures number { IfOk result (λ n. n ≡ self.old.offered) }
        ensures in_force { IfOk result (λ n.
            InForce self.new.history n (length self.old.history - 1)) }
        ensures few { IfOk result (λ n.
            (n < 2 ^ 64 - 1) × (length self.old.history ≤ MAX_VERSIONS)) }
        // The slot after a frame: there was room for it, and it is counted.
        ensures room { IfOk result (λ _. self.old.offered < self.old.max) }
        ensures counted { IfOk result (λ _. self.new ≡ one_frame_later self.old) }
        // Why none was drawn; the slot stays.
        ensures full { IfErr result (λ e.
            (e ≡ DrawFault.CountFull) × (self.old.offered ≡ self.old.max)) }
        ensures refused { OnErr result (self.new ≡ self.old) }
    {
        if self.is_full() {
            return Err(DrawFault::CountFull);
        }
        let number = self.offered;
        self.offered += 1;
        Ok(number)
    }

    /// Adds a program to the history: it is in force from the next frame on.
    ///
    /// # Errors
    ///
    /// [`InstallFault::VersionsFull`] exactly where the history has [`MAX_VERSIONS`] versions. It
    /// is never [`InstallFault::Stale`].
    #[tactic(auto, using(crate::proofs::Versions::longer_rows))]
    pub fn install(&mut self, program: Arc<Verified, Global>) -> Result<Installed, InstallFault>
        // The version installed, and the slot after it: there was room for it, and it is added.
        ensures place { IfOk result (λ i.
            (i.version ≡ length self.old.history) × (i.mark ≡ self.old.offered)) }
        ensures room { IfOk result (λ _. length self.old.history < MAX_VERSIONS) }
        ensures added { IfOk result (λ _. self.new ≡ with_version self.old (arc_value program)) }
        // Why none was installed, with the program; the slot stays.
        ensures full { OnErr result (length self.old.history ≡ MAX_VERSIONS) }
        ensures fault { IfErr result InstallIsNotStale }
        ensures back { IfErr result (GivesBack (arc_value program)) }
        ensures refused { OnErr result (self.new ≡ self.old) }
    {
        let version = self.programs.len();
        if version == MAX_VERSIONS {
            return Err(InstallFault::VersionsFull { program });
        }
        // a verified program is valid, as the history says of it
        let _ = program.insns();
        let mark = self.offered;
        self.programs.push_reserved(program);
        self.marks.push_reserved(mark);
        Ok(Installed {
            version: version as u32,
            mark,
        })
    }

    /// The program of each version, in the order in which they were installed.
    #[tactic(auto, using(crate::proofs::Versions::rows))]
    pub fn versions(&self) -> &[Arc<Verified, Global>]
        ensures programs { map arc_value result.now ≡ programs_in self.now.history }
    {
        self.programs.as_slice()
    }

    /// The mark of each version: the number of the first frame that it may meet.
    #[tactic(auto, using(crate::proofs::Versions::rows))]
    pub fn marks(&self) -> &[u64]
        ensures marks { result.now ≡ marks_in self.now.history }
    {
        self.marks.as_slice()
    }

    /// How many frames were drawn.
    #[tactic(auto, using(crate::proofs::Versions::rows))]
    pub fn offered(&self) -> u64
        ensures offered { result ≡ self.now.offered }
        ensures history { IsHistory self.now.offered self.now.history }
        ensures few { length self.now.history ≤ MAX_VERSIONS }
        ensures within { self.now.offered ≤ self.now.max }
    {
        self.offered
    }

    /// The history and the count of frames.
    #[tactic(auto, using(crate::proofs::Versions::rows))]
    pub fn into_parts(self) -> Parts
        // The parts are the history, as rows and as one list.
        ensures versions { map arc_value result.versions.items ≡ programs_in self.history }
        ensures marks { result.marks.items ≡ marks_in self.history }
        ensures same { versions_of (map arc_value result.versions.items) result.marks.items
            ≡ self.history }
        ensures offered { result.offered ≡ self.offered }
        // It is a history within its bounds.
        ensures history { IsHistory self.offered self.history }
        ensures few { length self.history ≤ MAX_VERSIONS }
        ensures within { self.offered ≤ self.max }
    {
        let Slot {
            programs,
            marks,
            offered,
            ..
        } = self;
        Parts {
            versions: programs,
            marks,
            offered,
        }
    }

    /// Whether as many frames were drawn as the channel may have.
    #[tactic(auto, using(crate::proofs::Versions::rows))]
    fn is_full(&self) -> bool
        ensures full { IsTrue result ↔ (self.now.offered ≡ self.now.max) }
        ensures room { IsFalse result → self.now.offered < self.now.max }
    {
        self.max == self.offered
    }

    /// How many versions and frames there are.
    #[tactic(auto, using(crate::proofs::Versions::rows))]
    pub(crate) fn front(&self) -> Front
        ensures versions { result.versions ≡ length self.now.history }
        ensures offered { result.offered ≡ self.now.offered }
        ensures few { length self.now.history ≤ MAX_VERSIONS }
        ensures within { self.now.offered ≤ self.now.max }
    {
        Front {
            versions: self.programs.len() as u32,
            offered: self.offered,
        }
    }
}
