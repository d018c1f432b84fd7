//! Setups of Chapter 11 files, and the first fault of a text that is none.

use rec_words::{FileSettings, RecordingSettings, setup_of};
use std::alloc::Global;
use std::process::Abort;
use std::test::Fail;
use test_samples::assert_same;

/// What a text says of one recording, or the text's first fault, on a line.
fn printed(alloc: Global, text: &str) -> Result<String, Fail> {
    match setup_of(alloc, text, 1) {
        Ok(setup) => Ok(shown(alloc, &setup)?),
        Err(fault) => Ok(format!(in alloc; "{fault}")?),
    }
}

/// The origins, what is said of the whole file, its attributes, and its channels.
fn shown(alloc: Global, setup: &FileSettings) -> Result<String, Fail> {
    let mut line = String::new(alloc);
    for recording in &setup.recordings {
        push_origins(alloc, recording, &mut line)?;
    }
    let general = &setup.general;
    let part = format!(in alloc;
        "{} {} {}",
        general.host, general.program, general.is_external
    )?;
    line.push_str(part.as_str())?;
    for attribute in &general.attributes {
        let part = format!(in alloc; " / {}={}", attribute.name, attribute.value)?;
        line.push_str(part.as_str())?;
    }
    for recording in &setup.recordings {
        push_channels(alloc, recording, &mut line)?;
    }
    Ok(line)
}

fn push_origins(
    alloc: Global,
    recording: &RecordingSettings,
    line: &mut String,
) -> Result<(), Fail> {
    for origin in &recording.origins {
        let part = format!(in alloc; "{} {} / ", origin.counter, origin.nanos)?;
        line.push_str(part.as_str())?;
    }
    Ok(())
}

fn push_channels(
    alloc: Global,
    recording: &RecordingSettings,
    line: &mut String,
) -> Result<(), Fail> {
    for channel in &recording.channels {
        let part = format!(in alloc; " / {} {} {}", channel.id, channel.name, channel.net)?;
        line.push_str(part.as_str())?;
    }
    Ok(())
}

fn check<R: AllocGlobal + Abort>(rt: &R, text: &str, line: &str) -> Result<(), Fail> {
    let printed = printed(rt.alloc(), text)?;
    assert_same!(*rt; printed.as_str(), line, "{text}");
    Ok(())
}

/// Whole texts and what they are.
const TEXTS: [(&str, &str); 24] = [
    ("origin = \"0\"", "0 0 / bpfrec bpfrec false"),
    (
        "origin = \"1764590400.250000123\"",
        "0 1764590400250000123 / bpfrec bpfrec false",
    ),
    (
        "origin = \"-0.5\"\r\nhost = \"h\"\r\nprogram = \"\"\r\nexternal = true\r\n",
        "0 -500000000 / h  true",
    ),
    (
        "channel = [{net = 255, name = \"a b\", id = 7}]\norigin = \"1\"",
        "0 1000000000 / bpfrec bpfrec false / 7 a b 255",
    ),
    (
        "origins = [{counter = 5, origin = \"2\"}, {origin = \"-1\", counter = 0}]",
        "5 2000000000 / 0 -1000000000 / bpfrec bpfrec false",
    ),
    (
        "origin = \"0\"\nattributes = []\nchannel = []",
        "0 0 / bpfrec bpfrec false",
    ),
    ("", "setup 3 Missing origin"),
    ("origin = ", "setup 1 Syntax"),
    ("origin = \"0\"\norigin = \"0\"", "setup 1 Syntax"),
    ("zone = 1\narea = 2", "setup 2 Unknown area"),
    ("origin = 0\nzone = 1", "setup 2 Unknown zone"),
    ("host = 1", "setup 3 Missing origin"),
    ("origin = \"0\"\norigins = 1", "setup 4 Value origins"),
    ("origin = \"\"\norigins = 1", "setup 4 Value origin"),
    (
        "origin = \"0\"\norigins = [{counter = 0, origin = \"0\"}]",
        "setup 4 Value origins",
    ),
    ("origin = \"a\"\nhost = 1", "setup 4 Value origin"),
    ("origins = []\nhost = 1", "setup 4 Value origins"),
    (
        "origin = \"0\"\nprogram = 1\nhost = 1",
        "setup 4 Value host",
    ),
    (
        "origin = \"0\"\nprogram = 1\nexternal = 1",
        "setup 4 Value program",
    ),
    (
        "origin = \"0\"\nattributes = 1\nexternal = \"true\"",
        "setup 4 Value external",
    ),
    (
        "origin = \"0\"\nchannel = 1\nattributes = \"A:1\"",
        "setup 4 Value attributes",
    ),
    ("origin = \"0\"\nchannel = 1", "setup 4 Value channel"),
    ("origin = \"0\"\nchannel = [1]", "setup 4 Value channel"),
    ("origin = \"0\"\n[channel]\nid = 1", "setup 4 Value channel"),
];

#[test]
fn what_is_not_set_has_its_default_and_the_first_fault_is_reported(
    rt: HostRuntime,
) -> Result<(), Fail> {
    for &(text, line) in &TEXTS {
        check(&rt, text, line)?;
    }
    Ok(())
}

/// What stands at the top, what stands in the table of an origin of 100 seconds, and the nanoseconds that it is in UTC.
const SCALES: [(&str, &str, &str); 22] = [
    ("", "scale = \"UTC\"", "100000000000"),
    ("", "scale = \"TAI\", tai_offset = 0", "100000000000"),
    ("", "tai_offset = 37, scale = \"TAI\"", "63000000000"),
    ("", "scale = \"TAI\", tai_offset = 255", "-155000000000"),
    ("scale = \"UTC\"", "scale = \"unknown\"", "100000000000"),
    (
        "scale = \"TAI\"\ntai_offset = 37",
        "scale = \"unknown\"",
        "63000000000",
    ),
    (
        "scale = \"TAI\"\ntai_offset = 37",
        "scale = \"UTC\"",
        "100000000000",
    ),
    (
        "scale = \"TAI\"\ntai_offset = 37",
        "host = 1",
        "setup 2 Unknown host",
    ),
    (
        "scale = \"TAI\"\ntai_offset = 37",
        "scale = \"TAI\", tai_offset = 36",
        "64000000000",
    ),
    ("", "scale = \"unknown\"", "setup 4 Value scale"),
    (
        "",
        "scale = \"tai\", tai_offset = 37",
        "setup 4 Value scale",
    ),
    ("", "scale = 1", "setup 4 Value scale"),
    ("", "scale = \"TAI\"", "setup 3 Missing tai_offset"),
    ("", "tai_offset = 37", "setup 4 Value tai_offset"),
    (
        "",
        "scale = \"UTC\", tai_offset = 0",
        "setup 4 Value tai_offset",
    ),
    (
        "scale = \"UTC\"",
        "scale = \"unknown\", tai_offset = 0",
        "setup 4 Value tai_offset",
    ),
    (
        "",
        "scale = \"TAI\", tai_offset = 256",
        "setup 4 Value tai_offset",
    ),
    (
        "",
        "scale = \"TAI\", tai_offset = -1",
        "setup 4 Value tai_offset",
    ),
    ("scale = \"unknown\"", "scale = 1", "setup 4 Value scale"),
    ("scale = \"TAI\"", "scale = 1", "setup 3 Missing tai_offset"),
    ("tai_offset = 37", "scale = 1", "setup 4 Value tai_offset"),
    (
        "scale = \"UTC\"\ntai_offset = 37",
        "scale = 1",
        "setup 4 Value tai_offset",
    ),
];

#[test]
fn an_origin_is_in_utc_whatever_its_scale(rt: HostRuntime) -> Result<(), Fail> {
    for &(top, table, line) in &SCALES {
        let text = format!(in rt.alloc();
            "{top}\norigins = [{{ counter = 7, origin = \"100\", {table} }}]"
        )?;
        let wanted = if line.starts_with("setup") {
            format!(in rt.alloc(); "{line}")?
        } else {
            format!(in rt.alloc(); "7 {line} / bpfrec bpfrec false")?
        };
        check(&rt, text.as_str(), wanted.as_str())?;
    }
    Ok(())
}

/// A time that is too early by its scale, and one that isn't; the scale of the top is none of `origin`.
#[test]
fn a_time_lies_less_than_10_to_the_12_seconds_from_1970_in_utc(
    rt: HostRuntime,
) -> Result<(), Fail> {
    for (offset, line) in [
        (0, "0 -999999999999999999999 / bpfrec bpfrec false"),
        (1, "setup 4 Value origin"),
    ] {
        let text = format!(in rt.alloc();
            "origins = [{{ counter = 0, origin = \"-999999999999.999999999\", scale = \"TAI\", tai_offset = {offset} }}]"
        )?;
        check(&rt, text.as_str(), line)?;
    }
    check(
        &rt,
        "scale = \"TAI\"\ntai_offset = 37\norigin = \"100\"",
        "0 100000000000 / bpfrec bpfrec false",
    )
}

/// Values of `origin`, and the nanoseconds that they are.
const ORIGINS: [(&str, &str); 13] = [
    (
        "\"999999999999.999999999\"",
        "0 999999999999999999999 / bpfrec bpfrec false",
    ),
    (
        "\"-999999999999.999999999\"",
        "0 -999999999999999999999 / bpfrec bpfrec false",
    ),
    ("\"00.1\"", "0 100000000 / bpfrec bpfrec false"),
    ("\"-0\"", "0 0 / bpfrec bpfrec false"),
    ("\"1000000000000\"", "setup 4 Value origin"),
    ("\"0.1234567890\"", "setup 4 Value origin"),
    ("\"1.\"", "setup 4 Value origin"),
    ("\".1\"", "setup 4 Value origin"),
    ("\"+1\"", "setup 4 Value origin"),
    ("\" 1\"", "setup 4 Value origin"),
    ("\"-\"", "setup 4 Value origin"),
    ("1.5", "setup 4 Value origin"),
    ("[\"0\"]", "setup 4 Value origin"),
];

#[test]
fn an_origin_has_12_digits_and_9_behind_the_point_at_most(rt: HostRuntime) -> Result<(), Fail> {
    for &(value, line) in &ORIGINS {
        let text = format!(in rt.alloc(); "origin = {value}")?;
        check(&rt, text.as_str(), line)?;
    }
    Ok(())
}

/// Tables of `origins` behind a first one, and what is read.
const NOTED: [(&str, &str); 12] = [
    (
        "{counter = 281474976710655, origin = \"3\"}",
        "0 0 / 281474976710655 3000000000 / bpfrec bpfrec false",
    ),
    (
        "{counter = 281474976710656, origin = \"3\"}",
        "setup 4 Value counter",
    ),
    ("{counter = -1, origin = \"3\"}", "setup 4 Value counter"),
    ("{counter = \"1\", origin = \"3\"}", "setup 4 Value counter"),
    ("{origin = \"3\"}", "setup 3 Missing counter"),
    ("{counter = 1}", "setup 3 Missing origin"),
    ("{counter = -1, origin = 3}", "setup 4 Value counter"),
    ("{counter = 1, origin = 3}", "setup 4 Value origin"),
    (
        "{counter = -1, zone = 1, offset = 1}",
        "setup 2 Unknown offset",
    ),
    ("1", "setup 4 Value origins"),
    ("{scale = 1}, 1", "setup 4 Value origins"),
    ("{counter = 1}, {scale = 1}", "setup 3 Missing origin"),
];

#[test]
fn an_origin_that_was_noted_has_a_counter_of_48_bits(rt: HostRuntime) -> Result<(), Fail> {
    for &(tables, line) in &NOTED {
        let text = format!(in rt.alloc(); "origins = [{{counter = 0, origin = \"0\"}}, {tables}]")?;
        check(&rt, text.as_str(), line)?;
    }
    Ok(())
}

/// As many tables of `origins`.
fn origins(alloc: Global, number: usize, table: &str) -> Result<String, Fail> {
    let mut text = String::from_str(alloc, "origins = [\n")?;
    for _ in 0..number {
        text.push_str(table)?;
        text.push_str(",\n")?;
    }
    text.push_str("]\n")?;
    Ok(text)
}

/// The number of tables is judged ahead of what they have.
#[test]
fn a_file_has_65536_origins_at_most(rt: HostRuntime) -> Result<(), Fail> {
    let text = origins(rt.alloc(), 65_536, "{}")?;
    let first = printed(rt.alloc(), text.as_str())?;
    assert_same!(rt; first.as_str(), "setup 3 Missing counter");
    let text = origins(rt.alloc(), 65_537, "{}")?;
    let first = printed(rt.alloc(), text.as_str())?;
    assert_same!(rt; first.as_str(), "setup 4 Value origins");
    Ok(())
}

#[test]
fn thousands_of_origins_are_read(rt: HostRuntime) -> Result<(), Fail> {
    let text = origins(rt.alloc(), 5_000, "{counter = 1, origin = \"2\"}")?;
    let setup = setup_of(rt.alloc(), text.as_str(), 1)?;
    assert_same!(rt; setup.recordings[0].origins.len(), 5_000);
    Ok(())
}

/// Tables of `channel`, and what is read.
const CHANNELS: [(&str, &str); 19] = [
    ("{id = 1}", " / 1 channel 0"),
    ("{id = 65535, name = \"é;:\", net = 0}", " / 65535 é;: 0"),
    ("{id = 2, name = \"\"}, {id = 1}", " / 2  0 / 1 channel 0"),
    ("{id = 0}", "setup 4 Value id"),
    ("{id = 65536}", "setup 4 Value id"),
    ("{id = -1}", "setup 4 Value id"),
    ("{id = \"1\"}", "setup 4 Value id"),
    ("{id = 1, net = 256}", "setup 4 Value net"),
    ("{id = 1, net = -1}", "setup 4 Value net"),
    ("{id = 1, name = 1, net = 256}", "setup 4 Value name"),
    ("{name = 1}", "setup 3 Missing id"),
    ("{port = 1, feed = 1, name = 1}", "setup 2 Unknown feed"),
    ("{id = 1}, {id = 1}", "setup 4 Value id"),
    ("{id = 1}, {id = 2}, {id = 1}", "setup 4 Value id"),
    ("{id = 1}, {id = 1, net = 256}", "setup 4 Value id"),
    ("{id = 1}, {id = 1, port = 1}", "setup 2 Unknown port"),
    ("{id = 1}, {id = 1}, {port = 1}", "setup 4 Value id"),
    ("{id = 1, net = 256}, {id = 1}", "setup 4 Value net"),
    ("{port = 1}, 1", "setup 4 Value channel"),
];

#[test]
fn a_channel_has_an_id_of_its_own(rt: HostRuntime) -> Result<(), Fail> {
    for &(tables, line) in &CHANNELS {
        check_behind_origin(&rt, "channel", tables, line)?;
    }
    Ok(())
}

/// Reads an origin and a list, and compares what is read of the list.
fn check_behind_origin<R: AllocGlobal + Abort>(
    rt: &R,
    key: &str,
    items: &str,
    line: &str,
) -> Result<(), Fail> {
    let text = format!(in rt.alloc(); "origin = \"0\"\n{key} = [{items}]")?;
    let front = if line.starts_with(" /") {
        "0 0 / bpfrec bpfrec false"
    } else {
        ""
    };
    let line = format!(in rt.alloc(); "{front}{line}")?;
    check(rt, text.as_str(), line.as_str())
}

/// Texts of `attributes`, and what is read.
const ATTRIBUTES: [(&str, &str); 41] = [
    ("'G\\SC:U'", " / G\\SC=U"),
    ("'V-1\\ID:'", " / V-1\\ID="),
    ("'A:b:c', ' :~ '", " / A=b:c /  =~ "),
    ("'A:1', 'B:2', 'A:3'", " / A=1 / B=2 / A=3"),
    ("'A'", "setup 4 Value attributes"),
    ("':A'", "setup 4 Value attributes"),
    ("''", "setup 4 Value attributes"),
    ("'A:1;'", "setup 4 Value attributes"),
    ("'A;B:1'", "setup 4 Value attributes"),
    ("'A:é'", "setup 4 Value attributes"),
    ("\"A:\\t\"", "setup 4 Value attributes"),
    ("\"A:\\n\"", "setup 4 Value attributes"),
    ("\"A:\\u007f\"", "setup 4 Value attributes"),
    ("'A:1', 2", "setup 4 Value attributes"),
    ("'A:1', ['B:2']", "setup 4 Value attributes"),
    ("'G\\PN:x'", " / G\\PN=x"),
    ("'g\\PN:x'", "setup 4 Value attributes"),
    ("'R-1\\N :3'", "setup 4 Value attributes"),
    ("'R-01\\N:3'", "setup 4 Value attributes"),
    ("'G\\DSI\\N:2'", "setup 4 Value attributes"),
    ("'G\\DSI-1:x'", "setup 4 Value attributes"),
    ("'R-1\\COM:x'", "setup 4 Value attributes"),
    ("'R-1\\N:3'", "setup 4 Value attributes"),
    ("'R-1\\IDX\\ICV:2'", "setup 4 Value attributes"),
    ("'R-1\\TK1-1:9'", "setup 4 Value attributes"),
    ("'R-1\\TK1-2:9'", "setup 4 Value attributes"),
    ("'R-1\\TK1-65536:9'", "setup 4 Value attributes"),
    (
        "'R-1\\CDT-99999999999999999999:9'",
        "setup 4 Value attributes",
    ),
    ("'R-1\\TSRC-1:E'", "setup 4 Value attributes"),
    ("'R-1\\ENBR-2-1:9'", "setup 4 Value attributes"),
    ("'R-1\\ENAM-10-1:'", "setup 4 Value attributes"),
    ("'R-1\\TK1-01:9'", "setup 4 Value attributes"),
    ("'R-1\\TK1-0:9'", "setup 4 Value attributes"),
    ("'R-1\\TK1-:9'", "setup 4 Value attributes"),
    ("'R-1\\TK1-1 :9'", "setup 4 Value attributes"),
    ("'R-1\\TK2-1:9'", " / R-1\\TK2-1=9"),
    ("'R-2\\TK1-1:9'", " / R-2\\TK1-1=9"),
    ("'R-1\\ENBR-2:9'", "setup 4 Value attributes"),
    ("'R-1\\ENBR-2-2:9'", "setup 4 Value attributes"),
    ("'r-1\\tk1-1:9'", "setup 4 Value attributes"),
    ("'G\\PN\\X:1'", " / G\\PN\\X=1"),
];

#[test]
fn an_attribute_is_one_that_a_setup_record_does_not_write(rt: HostRuntime) -> Result<(), Fail> {
    for &(texts, line) in &ATTRIBUTES {
        check_behind_origin(&rt, "attributes", texts, line)?;
    }
    Ok(())
}

/// What stands at the top of a single recording's setup, and the same with a table of it.
const FORMS: [(&str, &str); 5] = [
    ("origin = \"5\"", "recording = [{origin = \"5\"}]"),
    (
        "host = \"h\"\norigins = [{counter = 1, origin = \"2\"}]",
        "host = \"h\"\nrecording = [{origins = [{counter = 1, origin = \"2\"}]}]",
    ),
    (
        "origin = \"5\"\nattributes = ['A:1']\nchannel = [{id = 7, name = \"a\", net = 9}]",
        "attributes = ['A:1']\n[[recording]]\nchannel = [{id = 7, name = \"a\", net = 9}]\norigin = \"5\"",
    ),
    (
        "scale = \"TAI\"\ntai_offset = 37\norigins = [{counter = 0, origin = \"40\", scale = \"unknown\"}]",
        "scale = \"TAI\"\ntai_offset = 37\n[[recording]]\norigins = [{counter = 0, origin = \"40\", scale = \"unknown\"}]",
    ),
    ("origin = \"\"", "recording = [{origin = \"\"}]"),
];

#[test]
fn one_recording_is_the_same_in_either_form(rt: HostRuntime) -> Result<(), Fail> {
    for &(top, table) in &FORMS {
        let line = printed(rt.alloc(), top)?;
        check(&rt, table, line.as_str())?;
    }
    Ok(())
}

#[test]
fn a_setup_tells_whether_it_has_tables_of_recordings(rt: HostRuntime) -> Result<(), Fail> {
    let top = setup_of(rt.alloc(), "origin = \"5\"", 1)?;
    assert_same!(rt; top.has_tables, false);
    let tabled = setup_of(rt.alloc(), "recording = [{origin = \"5\"}]", 1)?;
    assert_same!(rt; tabled.has_tables, true);
    Ok(())
}

/// What a text says of so many recordings, one behind the other, or the text's first fault, on a line.
fn printed_recordings(alloc: Global, text: &str, recordings: usize) -> Result<String, Fail> {
    let setup = match setup_of(alloc, text, recordings) {
        Ok(setup) => setup,
        Err(fault) => return Ok(format!(in alloc; "{fault}")?),
    };
    let mut line = String::new(alloc);
    for recording in &setup.recordings {
        if let Some(place) = recording.after {
            let part = format!(in alloc; "after {place} / ")?;
            line.push_str(part.as_str())?;
        }
        push_origins(alloc, recording, &mut line)?;
        push_channels(alloc, recording, &mut line)?;
        line.push_str("; ")?;
    }
    Ok(line)
}

/// How many recordings there are, what SETUP has, and what is read.
const RECORDINGS: [(usize, &str, &str); 33] = [
    (
        2,
        "recording = [{origin = \"0\"}, {origin = \"1\"}]",
        "0 0 / ; 0 1000000000 / ; ",
    ),
    (
        2,
        "recording = [{origin = \"0\"}, {after = 0, origin = \"1\"}]",
        "0 0 / ; after 0 / 0 1000000000 / ; ",
    ),
    (
        3,
        "recording = [{origin = \"0\"}, {after = 0, origin = \"1\"}, {after = 1, origin = \"2\"}]",
        "0 0 / ; after 0 / 0 1000000000 / ; after 1 / 0 2000000000 / ; ",
    ),
    (
        2,
        "recording = [{origin = \"0\", channel = [{id = 1}]}, {origin = \"0\", channel = [{id = 1, net = 2}]}]",
        "0 0 /  / 1 channel 0; 0 0 /  / 1 channel 2; ",
    ),
    (
        2,
        "scale = \"UTC\"\nrecording = [{origin = \"0\"}, {origins = [{counter = 1, origin = \"1\", scale = \"unknown\"}]}]",
        "0 0 / ; 1 1000000000 / ; ",
    ),
    (2, "", "setup 3 Missing recording"),
    (2, "origin = \"0\"", "setup 3 Missing recording"),
    (2, "scale = 1", "setup 4 Value scale"),
    (2, "recording = []", "setup 4 Value recording"),
    (2, "recording = [{zone = 1}]", "setup 4 Value recording"),
    (
        2,
        "recording = [{zone = 1}, {}, {}]",
        "setup 4 Value recording",
    ),
    (1, "recording = []", "setup 4 Value recording"),
    (1, "recording = 1\nhost = 1", "setup 4 Value recording"),
    (1, "recording = [1]", "setup 4 Value recording"),
    (1, "[recording]\norigin = \"0\"", "setup 4 Value recording"),
    (
        1,
        "tai_offset = 1\nrecording = 1",
        "setup 4 Value tai_offset",
    ),
    (
        1,
        "origin = 1\nrecording = [{zone = 1}]",
        "setup 4 Value recording",
    ),
    (
        1,
        "origins = 1\nrecording = [{zone = 1}]",
        "setup 4 Value recording",
    ),
    (
        1,
        "channel = []\nrecording = [{origin = \"0\"}]",
        "setup 4 Value recording",
    ),
    (1, "recording = 1\nzone = 1", "setup 2 Unknown zone"),
    (
        1,
        "recording = [{zone = 1, area = 1}]\nhost = 1",
        "setup 2 Unknown area",
    ),
    (1, "recording = [{host = \"h\"}]", "setup 2 Unknown host"),
    (1, "recording = [{}]\nhost = 1", "setup 3 Missing origin"),
    (
        1,
        "recording = [{origin = \"0\"}]\nhost = 1",
        "setup 4 Value host",
    ),
    (
        1,
        "recording = [{origin = \"0\", origins = [], after = 0}]",
        "setup 4 Value origins",
    ),
    (
        1,
        "recording = [{origin = \"0\", after = 0, channel = 1}]",
        "setup 4 Value after",
    ),
    (
        1,
        "recording = [{origin = \"0\", channel = [{id = 1}, {id = 1}]}]",
        "setup 4 Value id",
    ),
    (
        2,
        "recording = [{origin = \"0\"}, {origin = \"0\", after = 1}]",
        "setup 4 Value after",
    ),
    (
        2,
        "recording = [{origin = \"0\"}, {origin = \"0\", after = -1}]",
        "setup 4 Value after",
    ),
    (
        2,
        "recording = [{origin = \"0\"}, {origin = \"0\", after = \"0\"}]",
        "setup 4 Value after",
    ),
    (
        3,
        "recording = [{origin = \"0\"}, {origin = \"0\", after = 0}, {origin = \"0\", after = 0}]",
        "setup 4 Value after",
    ),
    (
        2,
        "recording = [{origin = \"0\", channel = 1}, {zone = 1}]",
        "setup 4 Value channel",
    ),
    (
        2,
        "recording = [{origin = \"0\"}, {zone = 1}]",
        "setup 2 Unknown zone",
    ),
];

#[test]
fn each_recording_has_a_table_and_follows_an_earlier_one_at_most(
    rt: HostRuntime,
) -> Result<(), Fail> {
    for &(recordings, text, line) in &RECORDINGS {
        let printed = printed_recordings(rt.alloc(), text, recordings)?;
        assert_same!(rt; printed.as_str(), line, "{text}");
    }
    Ok(())
}
