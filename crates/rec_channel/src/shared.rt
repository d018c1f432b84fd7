//! A slot behind a lock, for a worker that draws while programs are installed.

ghost use Rattle.std.specs.Prelude.{◌≡◌, ◌+◌, ◌-◌, ◌^◌, ◌<◌, ◌≤◌, length, Some, slice_get, IfOk, IfErr, OnErr};
ghost use Rattle.rec_channel.specs.declared.limits.TheConstants.{MAX_VERSIONS};
ghost use Rattle.std.specs.Arc.{arc_value};
ghost use Rattle.rec_channel.specs.Fronts.{IsBelow, StaleOnlyBelow, MemoryOnlyBehind, InstallStaleOnlyBelow, GivesBack, front_of, DrawIsRefused, InstallIsRefused};
ghost use Rattle.rec_channel.specs.History.{InForce};
ghost use Rattle.rec_channel.specs.Slots.{programs_in, one_frame_later, with_version};
ghost use Rattle.rec_channel.specs.Since.{drawn_number, version_since, HasProgram, IsLater};

use crate::drawn::{Drawn, DrawnSince};
use crate::fault::{DrawFault, InstallFault};
use crate::front::Front;
use crate::installed::Installed;
use crate::slot::Slot;
use bpf_verify::Verified;
use std::alloc::Global;
use std::sync::{Arc, Mutex, Wait};

/// A slot behind a lock. Each call takes the lock once and does nothing under it but the slot's own
/// call; it waits as long as others hold the lock, and no contract says that it ever gets it.
///
/// Callers pass what they know of the slot, and get what it has after the call: so the numbers of a
/// caller's draws never repeat, and it never sees a version older than one that it, or whoever gave
/// it its front, has seen.
#[derive(Debug, Drop)]
pub struct SharedSlot {
    slot: Mutex<Slot>,
}

impl SharedSlot {
    /// The slot behind a lock that nobody holds.
    pub fn new(slot: Slot) -> SharedSlot {
        SharedSlot {
            slot: Mutex::new(slot),
        }
    }

    /// The slot, when nobody shares it any more. No contract says what became of it under the lock;
    /// it is a slot, with a history by its type.
    pub fn into_slot(self) -> Slot {
        let SharedSlot { slot } = self;
        slot.into_inner()
    }

    /// [`Slot::draw`] under the lock, and what the slot has after it.
    ///
    /// # Errors
    ///
    /// [`DrawFault::Stale`] exactly where the slot has less than the caller's front says; else
    /// those of [`Slot::draw`].
    pub fn draw<R: Wait>(&self, rt: &R, known: &Front) -> Result<(Drawn, Front), DrawFault>
        // The frame drawn, beside what the caller knew, and what the slot has after it.
        ensures newer { IfOk result (λ r.
            (known.now.offered ≤ r.0.number) × (known.now.versions ≤ r.0.version + 1)) }
        ensures front { IfOk result (λ r.
            r.1 ≡ record { versions = r.0.version + 1; offered = r.0.number + 1 }) }
        ensures few { IfOk result (λ r. (r.0.number < 2 ^ 64 - 1) × (r.0.version < MAX_VERSIONS)) }
        // Why none was drawn.
        ensures stale { IfErr result (StaleOnlyBelow known.now) }
    {
        draw_from(&mut self.slot.lock(rt), known)
    }

    /// [`SharedSlot::draw`] for a caller that has the program of the last version of its front: the
    /// program comes with a version that was installed since, and with no other, so most draws make
    /// no share of a program. The front is moved on in place.
    ///
    /// # Errors
    ///
    /// As [`SharedSlot::draw`]; the front stays. A caller that knows of all versions is never
    /// refused with [`DrawFault::Memory`], since it needs no share of a program.
    pub fn draw_since<R: Wait>(&self, rt: &R, known: &mut Front) -> Result<DrawnSince, DrawFault>
        // The frame drawn, beside what the caller knew, and what the slot has after it.
        ensures newer { IfOk result (λ since. known.old.offered ≤ drawn_number since) }
        ensures later { IfOk result (λ since. IsLater known.old since) }
        ensures front { IfOk result (λ since. known.new ≡ record {
          versions = version_since known.old since + 1;
          offered = drawn_number since + 1;
        }) }
        ensures few { IfOk result (λ since. (drawn_number since < 2 ^ 64 - 1)
            × (version_since known.old since < MAX_VERSIONS)) }
        // Why none was drawn.
        ensures stale { IfErr result (StaleOnlyBelow known.old) }
        ensures few_known { IfErr result (MemoryOnlyBehind MAX_VERSIONS known.old) }
        ensures kept { OnErr result (known.new ≡ known.old) }
    {
        draw_since_from(&mut self.slot.lock(rt), known)
    }

    /// [`Slot::install`] under the lock, and what the slot has after it.
    ///
    /// # Errors
    ///
    /// [`InstallFault::Stale`] exactly where the slot has less than the caller's front says; else
    /// those of [`Slot::install`]. Each gives the program back.
    pub fn install<R: Wait>(
        &self,
        rt: &R,
        program: Arc<Verified, Global>,
        known: &Front,
    ) -> Result<(Installed, Front), InstallFault>
        // The version installed, beside what the caller knew, and what the slot has after it.
        ensures newer { IfOk result (λ r.
            (known.now.offered ≤ r.0.mark) × (known.now.versions ≤ r.0.version)) }
        ensures front { IfOk result (λ r.
            r.1 ≡ record { versions = r.0.version + 1; offered = r.0.mark }) }
        // Why none was installed, with the program.
        ensures stale { IfErr result (InstallStaleOnlyBelow known.now) }
        ensures back { IfErr result (GivesBack (arc_value program)) }
    {
        install_from(&mut self.slot.lock(rt), program, known)
    }
}

/// What [`SharedSlot::draw`] does to the slot behind the lock.
fn draw_from(slot: &mut Slot, known: &Front) -> Result<(Drawn, Front), DrawFault>
    // The frame drawn: its number, the version in force at it, and the slot's front after it.
    ensures number { IfOk result (λ r. r.0.number ≡ slot.old.offered) }
    ensures last { IfOk result (λ r. r.0.version + 1 ≡ length slot.old.history) }
    ensures program { IfOk result (λ r.
        slice_get (programs_in slot.old.history) r.0.version ≡ Some (arc_value r.0.program)) }
    ensures in_force { IfOk result (λ r. InForce slot.new.history r.0.number r.0.version) }
    ensures front { IfOk result (λ r. r.1 ≡ front_of slot.new) }
    ensures few { IfOk result (λ r. (r.0.number < 2 ^ 64 - 1) × (r.0.version < MAX_VERSIONS)) }
    // The slot had no less than the caller has seen, and room; the frame is counted.
    ensures fresh { IfOk result (λ _. ¬ IsBelow (front_of slot.old) known.now) }
    ensures room { IfOk result (λ _. slot.old.offered < slot.old.max) }
    ensures counted { IfOk result (λ _. slot.new ≡ one_frame_later slot.old) }
    // Why none was drawn; the slot stays.
    ensures fault { IfErr result (DrawIsRefused slot.old known.now) }
    ensures refused { OnErr result (slot.new ≡ slot.old) }
{
    let seen = slot.front();
    if seen.is_below(known) {
        return Err(DrawFault::Stale { seen });
    }
    let drawn = slot.draw()?;
    Ok((drawn, slot.front()))
}

/// What [`SharedSlot::draw_since`] does to the slot behind the lock.
fn draw_since_from(slot: &mut Slot, known: &mut Front) -> Result<DrawnSince, DrawFault>
    // The frame drawn: its number, the version in force at it, and the slot's front after it.
    ensures number { IfOk result (λ since. drawn_number since ≡ slot.old.offered) }
    ensures last { IfOk result (λ since.
        version_since known.old since + 1 ≡ length slot.old.history) }
    ensures program { IfOk result (HasProgram slot.old.history) }
    ensures later { IfOk result (IsLater known.old) }
    ensures in_force { IfOk result (λ since.
        InForce slot.new.history (drawn_number since) (version_since known.old since)) }
    ensures front { IfOk result (λ _. known.new ≡ front_of slot.new) }
    ensures few { IfOk result (λ since. (drawn_number since < 2 ^ 64 - 1)
        × (version_since known.old since < MAX_VERSIONS)) }
    // The slot had no less than the caller has seen, and room; the frame is counted.
    ensures fresh { IfOk result (λ _. ¬ IsBelow (front_of slot.old) known.old) }
    ensures room { IfOk result (λ _. slot.old.offered < slot.old.max) }
    ensures counted { IfOk result (λ _. slot.new ≡ one_frame_later slot.old) }
    // Why none was drawn; the slot and the front stay.
    ensures fault { IfErr result (DrawIsRefused slot.old known.old) }
    ensures memory { IfErr result (MemoryOnlyBehind (length slot.old.history) known.old) }
    ensures few_known { IfErr result (MemoryOnlyBehind MAX_VERSIONS known.old) }
    ensures refused { OnErr result (slot.new ≡ slot.old) }
    ensures kept { OnErr result (known.new ≡ known.old) }
{
    let front = slot.front();
    if front.is_below(known) {
        return Err(DrawFault::Stale { seen: front });
    }
    let since = if front.versions == known.versions {
        DrawnSince::NoVersion(slot.draw_number()?)
    } else {
        DrawnSince::LaterVersion(slot.draw()?)
    };
    known.versions = front.versions;
    known.offered = front.offered + 1;
    Ok(since)
}

/// What [`SharedSlot::install`] does to the slot behind the lock.
fn install_from(
    slot: &mut Slot,
    program: Arc<Verified, Global>,
    known: &Front,
) -> Result<(Installed, Front), InstallFault>
    // The version installed, and the slot's front after it.
    ensures place { IfOk result (λ r.
        (r.0.version ≡ length slot.old.history) × (r.0.mark ≡ slot.old.offered)) }
    ensures front { IfOk result (λ r. r.1 ≡ front_of slot.new) }
    // The slot had no less than the caller has seen, and room; the version is added.
    ensures fresh { IfOk result (λ _. ¬ IsBelow (front_of slot.old) known.now) }
    ensures room { IfOk result (λ _. length slot.old.history < MAX_VERSIONS) }
    ensures added { IfOk result (λ _. slot.new ≡ with_version slot.old (arc_value program)) }
    // Why none was installed, with the program; the slot stays.
    ensures fault { IfErr result (InstallIsRefused slot.old known.now) }
    ensures back { IfErr result (GivesBack (arc_value program)) }
    ensures refused { OnErr result (slot.new ≡ slot.old) }
{
    let seen = slot.front();
    if seen.is_below(known) {
        return Err(InstallFault::Stale { program, seen });
    }
    let installed = slot.install(program)?;
    Ok((installed, slot.front()))
}
