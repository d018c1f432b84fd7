//! Settings of recordings, and the first fault of a text that has none.

use rec_cli::{ChannelSettings, Settings, settings_of};
use std::alloc::Global;
use std::process::Abort;
use std::test::Fail;
use test_samples::assert_same;

/// A channel with the least that must be set.
const CHANNEL: &str = "[[channel]]\nid = 1\nfeed = \"a.feed\"\nfilter = \"a.bpf\"\n";

/// The settings of a text, or its first fault, on a line.
fn told(alloc: Global, text: &str) -> Result<String, Fail> {
    match settings_of(alloc, text) {
        Ok(settings) => Ok(shown(alloc, &settings)?),
        Err(fault) => Ok(format!(in alloc; "{fault}")?),
    }
}

/// The limit, the ring and the version, and what is set of each channel.
fn shown(alloc: Global, settings: &Settings) -> Result<String, Fail> {
    let mut line = format!(in alloc;
        "{} {} {}",
        settings.limit.get(),
        settings.ring,
        settings.version
    )?;
    for channel in &settings.channels {
        let ChannelSettings {
            id,
            feed,
            filter,
            net,
            speed,
            max,
            span,
            ..
        } = channel;
        let part = format!(in alloc; " / {id} {feed} {filter} {net} {speed} {max} {span}")?;
        line.push_str(part.as_str())?;
    }
    Ok(line)
}

fn check<R: AllocGlobal + Abort>(rt: &R, text: &str, line: &str) -> Result<(), Fail> {
    let told = told(rt.alloc(), text)?;
    assert_same!(*rt; told.as_str(), line, "{text}");
    Ok(())
}

#[test]
fn what_is_not_set_has_its_default(rt: HostRuntime) -> Result<(), Fail> {
    check(
        &rt,
        "limit = 16424\n[[channel]]\nid = 1\nfeed = \"a.feed\"\nfilter = \"a.bpf\"\nspeed = 3",
        "16424 64 8 / 1 a.feed a.bpf 0 3 9223372036854775807 0",
    )?;
    check(
        &rt,
        CHANNEL,
        "65536 64 8 / 1 a.feed a.bpf 0 0 9223372036854775807 0",
    )?;
    check(
        &rt,
        "channel = [{max = 0, speed = 15, net = 255, filter = \"\", feed = \"b\", id = 65535}]",
        "65536 64 8 / 65535 b  255 15 0 0",
    )
}

#[test]
fn keys_of_the_recording_are_taken_to_their_limits(rt: HostRuntime) -> Result<(), Fail> {
    let table = &[
        ("limit = 16424", "16424 64 8"),
        ("limit = 524284", "524284 64 8"),
        ("limit = 16423", "settings 4 Value limit"),
        ("limit = 524285", "settings 4 Value limit"),
        ("limit = 16424.0", "settings 4 Value limit"),
        ("limit = \"65536\"", "settings 4 Value limit"),
        ("ring = 1", "65536 1 8"),
        ("ring = 4096", "65536 4096 8"),
        ("ring = 0", "settings 4 Value ring"),
        ("ring = 4097", "settings 4 Value ring"),
        ("version = 0", "65536 64 0"),
        ("version = 255", "65536 64 255"),
        ("version = -1", "settings 4 Value version"),
        ("version = 256", "settings 4 Value version"),
    ];
    for &(key, line) in table {
        let text = format!(in rt.alloc(); "{key}\n{CHANNEL}")?;
        let told = told(rt.alloc(), text.as_str())?;
        assert!(rt; told.as_str().starts_with(line), "{key}: {told}");
    }
    Ok(())
}

#[test]
fn keys_of_a_channel_are_taken_to_their_limits(rt: HostRuntime) -> Result<(), Fail> {
    let table = &[
        (
            "id = 65535",
            "65536 64 8 / 65535 f l 0 0 9223372036854775807 0",
        ),
        ("id = 0", "settings 4 Value id"),
        ("id = 65536", "settings 4 Value id"),
        ("id = true", "settings 4 Value id"),
        ("id = 1\nnet = 256", "settings 4 Value net"),
        ("id = 1\nnet = -1", "settings 4 Value net"),
        ("id = 1\nspeed = 16", "settings 4 Value speed"),
        (
            "id = 1\nmax = 9223372036854775807",
            "65536 64 8 / 1 f l 0 0 9223372036854775807 0",
        ),
        ("id = 1\nmax = 0", "65536 64 8 / 1 f l 0 0 0 0"),
        ("id = 1\nmax = -1", "settings 4 Value max"),
        ("id = 1\nmax = 9223372036854775808", "settings 1 Syntax"),
        (
            "id = 1\nmax = 1\nspan = 281474976710655",
            "65536 64 8 / 1 f l 0 0 1 281474976710655",
        ),
        ("id = 1\nmax = 1\nspan = 0", "65536 64 8 / 1 f l 0 0 1 0"),
        ("id = 1\nspan = -1", "settings 4 Value span"),
        ("id = 1\nspan = 281474976710656", "settings 4 Value span"),
        ("id = 1\nspan = 0.1", "settings 4 Value span"),
        ("net = 256", "settings 3 Missing id"),
        ("id = 1\nport = 7\nnet = 256", "settings 2 Unknown port"),
    ];
    for &(keys, line) in table {
        let text = format!(in rt.alloc(); "[[channel]]\nfeed = \"f\"\nfilter = \"l\"\n{keys}\n")?;
        check(&rt, text.as_str(), line)?;
    }
    Ok(())
}

#[test]
fn the_first_fault_is_told(rt: HostRuntime) -> Result<(), Fail> {
    let table = &[
        ("limit = 1\nlimit = 2", "settings 1 Syntax"),
        ("limit = 16420", "settings 4 Value limit"),
        (
            "limit = 16420\nzone = 1\narea = 2",
            "settings 2 Unknown area",
        ),
        ("ring = 0\nlimit = 0", "settings 4 Value limit"),
        (
            "ring = 0\nversion = 256\nchannel = 1",
            "settings 4 Value ring",
        ),
        ("", "settings 5 Channels"),
        ("channel = []", "settings 5 Channels"),
        ("channel = 1", "settings 4 Value channel"),
        ("channel = [1]", "settings 4 Value channel"),
        ("[channel]\nid = 1", "settings 4 Value channel"),
        (
            "[[channel]]\nid = 1\nfilter = \"a.bpf\"",
            "settings 3 Missing feed",
        ),
        (
            "[[channel]]\nid = 1\nfeed = \"a.feed\"",
            "settings 3 Missing filter",
        ),
        ("[[channel]]\nid = 1\nfeed = 1", "settings 4 Value feed"),
        ("[[channel]]\nfeed = 1\nfilter = 1", "settings 3 Missing id"),
    ];
    for &(text, line) in table {
        check(&rt, text, line)?;
    }
    Ok(())
}

/// Channels with these IDs.
fn channels(alloc: Global, ids: &[u16]) -> Result<String, Fail> {
    let mut text = String::new(alloc);
    for id in ids {
        let channel = format!(in alloc; "[[channel]]\nid = {id}\nfeed = \"f\"\nfilter = \"l\"\n")?;
        text.push_str(channel.as_str())?;
    }
    Ok(text)
}

#[test]
fn the_first_id_that_repeats_an_earlier_one_is_told(rt: HostRuntime) -> Result<(), Fail> {
    let table: [(&[u16], &str); 4] = [
        (&[1, 2, 1], "settings 6 SameChannel 1"),
        (&[1, 2, 2, 1], "settings 6 SameChannel 2"),
        (&[3, 1, 1, 1, 3], "settings 6 SameChannel 1"),
        (&[7, 7, 0], "settings 4 Value id"),
    ];
    for (ids, line) in table {
        let text = channels(rt.alloc(), ids)?;
        check(&rt, text.as_str(), line)?;
    }
    Ok(())
}

#[test]
fn a_recording_has_64_channels_at_most(rt: HostRuntime) -> Result<(), Fail> {
    let mut ids = Vec::new(rt.alloc());
    for id in 1..65 {
        ids.push(id)?;
    }
    let text = channels(rt.alloc(), ids.as_slice())?;
    let settings = settings_of(rt.alloc(), text.as_str())?;
    assert_same!(rt; settings.channels.len(), 64);
    ids.push(65)?;
    let text = channels(rt.alloc(), ids.as_slice())?;
    check(&rt, text.as_str(), "settings 5 Channels")
}

/// A path of so many bytes.
fn path(alloc: Global, len: usize) -> Result<String, Fail> {
    let mut path = String::new(alloc);
    for _ in 0..len {
        path.push_str("f")?;
    }
    Ok(path)
}

/// The feeds of 64 channels have paths of 63, 127 and so on to 4,095 bytes, the longest that Linux
/// takes, and their filters the longest: the first 1, 2, 4 and so on to all of them, 400,000 bytes.
#[test]
fn settings_of_64_channels_with_paths_up_to_the_longest_are_read(
    rt: HostRuntime,
) -> Result<(), Fail> {
    let alloc = rt.alloc();
    let longest = path(alloc, 4_095)?;
    let mut text = String::new(alloc);
    let mut line = String::from_str(alloc, "65536 64 8")?;
    for id in 1..65u32 {
        let feed = path(alloc, (64 * id as usize).saturating_sub(1))?;
        let channel = format!(in alloc;
            "[[channel]]\nid = {id}\nfeed = \"{feed}\"\nfilter = \"{longest}\"\n"
        )?;
        text.push_str(channel.as_str())?;
        let part = format!(in alloc; " / {id} {feed} {longest} 0 0 9223372036854775807 0")?;
        line.push_str(part.as_str())?;
        if id.is_power_of_two() {
            let told = told(alloc, text.as_str())?;
            assert!(rt;
                told.as_str() == line.as_str(),
                "{} bytes of settings",
                text.len()
            );
        }
    }
    Ok(())
}
