//! The limits that help names, beside the constants that hold them.

use bpf_insn::MAX_INSNS;
use bpf_machine::MAX_VIEW;
use ch11_packet::{MAX_ETHERNET_PACKET_LEN, MAX_LIMIT, MAX_SPEED, MIN_LIMIT};
use rec_channel::{MAX_CHANNELS, MAX_RING};
use rec_cli::{WordsFault, words_of};
use std::alloc::Global;
use std::process::Abort;
use std::test::Fail;

/// The help of a command, as it is printed.
fn help_of(alloc: Global, command: &str) -> Result<String, Fail> {
    let mut words = Vec::new(alloc);
    words.push(String::from_str(alloc, "help")?)?;
    words.push(String::from_str(alloc, command)?)?;
    match words_of(alloc, words.as_slice()) {
        Err(WordsFault::Help(text)) => Ok(text),
        _ => Err("help")?,
    }
}

/// A number below a million as help writes it, as 4,096.
fn with_comma(alloc: Global, number: usize) -> Result<String, Fail> {
    Ok(format!(in alloc; "{},{:03}", number / 1000, number % 1000)?)
}

fn check<R: AllocGlobal + Abort>(rt: &R, command: &str, part: &str) -> Result<(), Fail> {
    let help = help_of(rt.alloc(), command)?;
    assert!(*rt; help.as_str().find(part).is_some(), "{command}: {part}");
    Ok(())
}

#[test]
fn help_has_the_limits_of_settings(rt: HostRuntime) -> Result<(), Fail> {
    let alloc = rt.alloc();
    let limit = format!(in alloc; "in bytes, {MIN_LIMIT} to {MAX_LIMIT}\n")?;
    check(&rt, "record", limit.as_str())?;
    let ring = format!(in alloc; "may wait for OUT, 1 to {MAX_RING}\n")?;
    check(&rt, "record", ring.as_str())?;
    let speed = format!(in alloc; "their Ethernet speed, 0 to {MAX_SPEED}\n")?;
    check(&rt, "record", speed.as_str())?;
    let channels = format!(in alloc; " 1 to {MAX_CHANNELS} of them, each with an id of its own\n")?;
    check(&rt, "record", channels.as_str())?;
    check(&rt, "simulate", channels.as_str())
}

#[test]
fn help_has_the_limits_of_filters_and_packets(rt: HostRuntime) -> Result<(), Fail> {
    let alloc = rt.alloc();
    let insns = with_comma(alloc, MAX_INSNS)?;
    let insns = format!(in alloc; "{insns} instructions")?;
    check(&rt, "asm", insns.as_str())?;
    check(&rt, "dis", insns.as_str())?;
    let view = with_comma(alloc, MAX_VIEW)?;
    let view = format!(in alloc; "over {view} bytes")?;
    check(&rt, "run", view.as_str())?;
    let packet = with_comma(alloc, MAX_ETHERNET_PACKET_LEN as usize)?;
    let packet = format!(in alloc; "past {packet} bytes")?;
    check(&rt, "upgrade", packet.as_str())
}
