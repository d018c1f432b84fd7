//! The audit, packet by packet.

ghost use Rattle.std.specs.Prelude.{ℕ, ◌≡◌, ◌∷◌, ◌++◌, [], List, length, Option, None, Some, Err, OnOk, MatchResult};
ghost use Rattle.rec_reader.specs.declared.audits.answer.AuditFault.{AuditFault};
ghost use Rattle.rec_reader.specs.Packets.{PacketData};
ghost use Rattle.rec_reader.specs.Audits.{Audits};
ghost use Rattle.rec_reader.specs.Auditors.{fault_in, AuditorStandsFor, TakesPacket, Walks, state_of, state_after, SetsState, JudgesState};
ghost use Rattle.rec_reader.specs.Views.{packet_data, said_data};

use crate::audits::answer::{Audit, AuditFault, AuditLines};
use crate::audits::channel::ChannelState;
use crate::audits::said::{Said, said_by};
use crate::packet::Packet;
use std::alloc::Global;
use std::collections::BTreeMap;

/// An audit that takes a recording packet by packet. Of each channel it keeps the last program and
/// four numbers, and of the packets nothing else; so its memory grows with the number of channels
/// that are named.
#[derive(Debug, Drop)]
pub struct Auditor {
    alloc: Global,
    channels: BTreeMap<u16, ChannelState>,
    taken: u64,
    other: u64,
    fault: Option<AuditFault>,
}

impl Auditor {
    /// An auditor of no packets. It takes no memory yet.
    pub fn new(alloc: Global) -> Auditor
        ensures works { fault_in result ≡ None }
        ensures stands { AuditorStandsFor result [] }
    {
        Auditor {
            alloc,
            channels: BTreeMap::new(alloc),
            taken: 0,
            other: 0,
            fault: None,
        }
    }

    /// Takes the next packet of a recording.
    ///
    /// # Errors
    ///
    /// The fault of the first packet that has one, counted from 0 among those that the auditor
    /// took; from then on each call answers the same fault. [`AuditFault::Memory`] is only answered
    /// if there was no memory for a program or for a further channel, and is a fault like any
    /// other: the packets from there on are not judged.
    pub fn take(&mut self, packet: &Packet<'_>) -> Result<(), AuditFault>
        // The packets that it stands for.
        ensures stands { (packets : List PacketData) → AuditorStandsFor self.old packets
            → AuditorStandsFor self.new (packets ++ packet_data packet.now ∷ []) }

        // The answer.
        ensures walks { (packets : List PacketData) → AuditorStandsFor self.old packets
            → Walks (packets ++ packet_data packet.now ∷ []) result }
        ensures fault { MatchResult result
            (λ _. fault_in self.new ≡ None) (λ fault. fault_in self.new ≡ Some fault) }
        ensures again { (fault : AuditFault) → fault_in self.old ≡ Some fault
            → (self.new ≡ self.old) × (result ≡ Err fault) }
    {
        if let Some(fault) = self.fault {
            return Err(fault);
        }
        match self.judge(packet) {
            Ok(()) => {
                self.taken = self.taken.saturating_add(1);
                Ok(())
            }
            Err(fault) => {
                self.fault = Some(fault);
                Err(fault)
            }
        }
    }

    /// Judges a packet, before any fault.
    fn judge(&mut self, packet: &Packet<'_>) -> Result<(), AuditFault>
        ensures takes { TakesPacket self.old self.new (packet_data packet.now) result }
        ensures taken { self.new.taken ≡ self.old.taken }
        ensures fault { fault_in self.new ≡ fault_in self.old }
    {
        match said_by(packet) {
            Some((channel, said)) => {
                take_said(self.alloc, &mut self.channels, self.taken, channel, &said)
            }
            None => {
                self.other = self.other.saturating_add(1);
                Ok(())
            }
        }
    }

    /// The audit of the packets that were taken.
    ///
    /// # Errors
    ///
    /// The fault that [`take`](Auditor::take) answered; else [`AuditFault::NoEnd`] or
    /// [`AuditFault::Counts`] of the least channel that has one; [`AuditFault::Memory`] if there
    /// was no memory for the lines.
    pub fn end(self) -> Result<Audit, AuditFault>
        ensures audits { (packets : List PacketData) → AuditorStandsFor self packets
            → Audits packets result }
        ensures again { (fault : AuditFault) → fault_in self ≡ Some fault → result ≡ Err fault }
    {
        if let Some(fault) = self.fault {
            return Err(fault);
        }
        let mut lines = Vec::new(self.alloc);
        'channels: for (channel, state) in &self.channels {
            lines.push(state.close(*channel)?)?;
        }
        Ok(Audit {
            channels: AuditLines::new(lines),
            other: self.other,
        })
    }
}

/// Takes what the packet with this number says of a channel.
fn take_said(
    alloc: Global,
    channels: &mut BTreeMap<u16, ChannelState>,
    number: u64,
    channel: u16,
    said: &Said<'_>,
) -> Result<(), AuditFault>
    ensures judged { JudgesState number (state_of channels.old channel)
        (said_data said.now) result }
    ensures set { OnOk result (SetsState channels.old channel
        (state_after (state_of channels.old channel) (said_data said.now)) channels.new) }
{
    match channels.get_mut(&channel) {
        Some(state) => state.take(alloc, number, said),
        None => {
            let mut state = ChannelState::unnamed();
            state.take(alloc, number, said)?;
            channels.insert(channel, state)?;
            Ok(())
        }
    }
}
