//! The core: channels and the one writer, which do one event after another.

ghost use Rattle.std.specs.Prelude.{ℕ, ◌≡◌, ◌≢◌, ◌<◌, ◌≤◌, ◌∷◌, [], true, false, length, map, vec_len, Some, slice_get, IfOk, IfErr, IfSome, IfNone, All};
ghost use Rattle.std.specs.List.{AllZip};
ghost use Rattle.rec_core.specs.Openings.{HaveFilters, channels_of_specs};
ghost use Rattle.rec_core.specs.World.{opening_channel};
ghost use Rattle.rec_core.specs.Worlds.{HoldsChannel, channels_of_parts};
ghost use Rattle.rec_core.specs.Views.{specs_data, all_parts};

use crate::channel::Channel;
use crate::event::Event;
use crate::fault::CoreFault;
use crate::reply::Reply;
use crate::spec::{ChannelSpec, channels_of};
use rec_channel::MAX_RING;
use rec_writer::Writer;
use std::alloc::{AllocError, Global};
use std::io::Write;
use std::marker::Model;

/// The recorder's core: the channels of a recording, and the one writer of their pieces. It does
/// one event after another, and each refusal leaves it as it was.
#[derive(Debug, Drop)]
pub struct World<W: Write> {
    channels: Vec<Channel>,
    writer: Writer<W>,
}

impl<W: Write> Model for World<W> {
    ghost use Rattle.rec_core.specs.Worlds.{CoreState, IsCore};
    ghost use Rattle.rec_core.specs.Views.{core_of};

    ghost Value = { CoreState };

    ghost view = { λ w. core_of w.channels.items w.writer };

    ghost invariant = { λ w. IsCore (core_of w.channels.items w.writer) };
}

impl<W: Write + Drop> World<W> {
    ghost use Rattle.rec_core.specs.Openings.{AreSpecs};
    ghost use Rattle.rec_core.specs.World.{opening_world};
    ghost use Rattle.rec_core.specs.Worlds.{StandsForWorld, StepsWorld, StepsCut, WritesOnlyWhileItWorks};
    ghost use Rattle.rec_core.specs.Views.{event_data};

    /// A core of these channels, of which nothing was taken. Each channel's ring has room for
    /// `ring` pieces, 1 to [`MAX_RING`]; packets have this data type version.
    /// [`specs_ok`](crate::specs_ok) tells whether a core may have these channels.
    ///
    /// # Errors
    ///
    /// [`AllocError`] if there is no memory for the slots, lanes and rings, or a program has too
    /// many shares for one more.
    pub fn new(
        alloc: Global,
        specs: &[ChannelSpec],
        ring: usize,
        version: u8,
        out: W,
    ) -> Result<World<W>, AllocError>
        requires specs { AreSpecs (specs_data specs.now) }
        requires some { 0 < ring }
        requires few { ring ≤ MAX_RING }
        // It stands for the opening world, in which each program is a filter.
        ensures opening { IfOk result (λ world. StandsForWorld ring (W.contents out) world
            (opening_world (specs_data specs.now))) }
        ensures filters { IfOk result (λ world. HaveFilters (specs_data specs.now)) }
        // Its writer has this version, and its output has not failed.
        ensures version { IfOk result (λ world. world.writer.version ≡ version) }
        ensures works { IfOk result (λ world. world.writer.failed ≡ false) }
    {
        let channels = open_channels(alloc, specs, ring)?;
        let writer = Writer::new(out, channels_of(specs).as_slice(), version);
        Ok(World { channels, writer })
    }

    /// Does an event, and answers what it did.
    ///
    /// # Errors
    ///
    /// A [`CoreFault`], under its condition and in the event's order; the world is as it was.
    pub fn step(&mut self, event: &Event) -> Result<Reply, CoreFault>
        // A step of each world that the core stood for.
        ensures step { StepsWorld self.old self.new (event_data event.now) result }
        // A failed output: its bytes end within the first piece in the ring of the channel whose
        // write was the first to fail; it is not written again, and no later write succeeds.
        ensures cut { StepsCut self.old self.new (event_data event.now) result }
        ensures failed { (result ≡ Err CoreFault.Output) → self.new.writer.failed ≡ true }
        ensures silent { (self.old.writer.failed ≡ true) → self.new.writer ≡ self.old.writer }
        ensures works { IfOk result (WritesOnlyWhileItWorks self.old.writer.failed) }
        ensures version { self.new.writer.version ≡ self.old.writer.version }
    {
        let Some(at) = position_of(self.channels.as_slice(), event.channel()) else {
            return Err(CoreFault::NoChannel);
        };
        let channel = &mut self.channels[at];
        channel.serve(&mut self.writer, event)
    }

    /// The output.
    pub fn out(&self) -> &W
        ensures { W.contents result.now ≡ self.now.writer.held }
    {
        self.writer.out()
    }
}

/// The channels of a core, of which nothing was taken.
fn open_channels(
    alloc: Global,
    specs: &[ChannelSpec],
    ring: usize,
) -> Result<Vec<Channel>, AllocError>
    ensures opening { IfOk result (λ v. AllZip (HoldsChannel ring) (all_parts v.items)
        (map opening_channel (specs_data specs.now))) }
    ensures channels { IfOk result (λ v. channels_of_parts (all_parts v.items)
        ≡ channels_of_specs (specs_data specs.now)) }
    ensures filters { IfOk result (λ v. HaveFilters (specs_data specs.now)) }
{
    let mut channels = Vec::with_capacity(alloc, specs.len())?;
    'specs: for spec in specs {
        channels.push_reserved(Channel::new(alloc, spec, ring)?);
    }
    Ok(channels)
}

/// Where the channel with this ID stands.
fn position_of(channels: &[Channel], channel: u16) -> Option<usize>
    ensures found { IfSome result (λ at.
        slice_get (channels_of_parts (all_parts channels.now)) at ≡ Some channel) }
    ensures within { IfSome result (λ at. at < length channels.now) }
    ensures none { IfNone result (All (λ (other : ℕ). other ≢ channel)
        (channels_of_parts (all_parts channels.now))) }
{
    'channels: for at in 0..channels.len() {
        if channels[at].spec.channel == channel {
            return Some(at);
        }
    }
    None
}
