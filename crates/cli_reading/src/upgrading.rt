//! The command that brings an old recording up to date.

ghost use Rattle.std.specs.Prelude.{◌≡◌, ◌^◌, ◌<◌, codes, length, IfOk, IfSome, OnOk};
ghost use Rattle.std.specs.Io.KnownBytes.{Appends};
ghost use Rattle.cli_reading.specs.Lines.{upgraded_line, CountsUpgrade, PrintsUpgraded, TakesUpgraded};

use crate::written::{PerPacket, write_recording};
use cli_streams::{CommandEnding, LockFile, print_line};
use rec_reader::{Packet, Upgraded, upgrade_packet};
use std::alloc::Global;
use std::io::{Read, Write};
use std::rt::Files;

impl PerPacket for Upgraded {
    ghost use Rattle.std.specs.Prelude.{◌≡◌};
    ghost use Rattle.rec_reader.specs.Upgrades.{counted_with, spelling_of, upgraded};

    ghost bytes_for = { λ _ packet. spelling_of (upgraded packet) };

    ghost counts = { λ old packet new. new ≡ counted_with old packet };

    fn write_packet<W: Write>(&mut self, packet: &Packet<'_>, out: &mut W) -> bool {
        upgrade_packet(packet, out, self).is_ok()
    }
}

/// `upgrade IN OUT`: writes the upgrade of the recording IN into the file OUT, as [`write_recording`]
/// does, and prints how many packets were given a data checksum, and how many were copied.
pub fn upgrade_recording<'a, R: AllocGlobal + Files, I: Read, O: Write>(
    rt: &R,
    file: &'a str,
    out: &'a str,
    input: &mut I,
    output: &mut O,
) -> Result<(), CommandEnding<'a>>
where
    R::File: LockFile,
    ensures line { OnOk result (TakesUpgraded (O.contents output.old) (O.contents output.new)) }
    ensures streamed { file.now ≡ codes "-" → OnOk result (IfSome (I.remaining input.old)
        (λ recording. length recording < 2 ^ 64 → PrintsUpgraded recording
        (O.contents output.old) (O.contents output.new))) }
{
    let upgraded = upgrade(rt, file, out, input)?;
    print_upgraded(rt.alloc(), output, upgraded)
}

/// Upgrades a recording, and says how many packets were given a data checksum and copied.
fn upgrade<'a, R: AllocGlobal + Files, I: Read>(
    rt: &R,
    file: &'a str,
    out: &'a str,
    input: &mut I,
) -> Result<Upgraded, CommandEnding<'a>>
where
    R::File: LockFile,
    ensures counted { file.now ≡ codes "-" → IfOk result (λ upgraded.
        IfSome (I.remaining input.old) (λ recording. length recording < 2 ^ 64
        → CountsUpgrade recording upgraded)) }
{
    let mut upgraded = Upgraded {
        packets: 0,
        copied: 0,
    };
    write_recording(rt, file, out, input, &mut upgraded)?;
    Ok(upgraded)
}

/// Prints how many packets were given a data checksum, and how many were copied.
fn print_upgraded<O: Write>(
    alloc: Global,
    output: &mut O,
    upgraded: Upgraded,
) -> Result<(), CommandEnding<'static>>
    ensures { OnOk result (Appends (O.contents output.old) (O.contents output.new)
        (upgraded_line upgraded.packets upgraded.copied)) }
{
    let Upgraded { packets, copied } = upgraded;
    let mut line = Vec::new(alloc);
    let built = writeln!(&mut line, "upgraded {packets} copied {copied}");
    print_line(output, &mut line, built)
}
