//! The channels of a file of several recordings.

use ch11_channels::{NamedIds, file_channels, id_in_file, named_channels, runs_of, time_channel};
use std::alloc::Global;
use std::test::Fail;
use test_samples::assert_same;

/// Of each recording its run and the IDs that it names; the IDs in the file, and behind them that of the time.
const NUMBERINGS: [(&[(usize, &[u16])], &str); 8] = [
    (&[], "/ 1"),
    (&[(0, &[2, 7])], "2 7 / 1"),
    (&[(0, &[7]), (1, &[7])], "7 1 / 2"),
    (&[(0, &[1, 2]), (1, &[1, 2])], "1 2 3 4 / 5"),
    (&[(0, &[7]), (1, &[1, 7])], "7 1 2 / 3"),
    (&[(0, &[7]), (0, &[7, 8])], "7 8 / 1"),
    (&[(0, &[3]), (1, &[5]), (0, &[5])], "3 5 1 / 2"),
    (&[(0, &[7]), (1, &[7]), (2, &[1])], "7 2 1 / 3"),
];

/// The IDs of a file, and that of its time.
fn numbered(alloc: Global, recordings: &[(usize, &[u16])]) -> Result<String, Fail> {
    let mut names = Vec::new(alloc);
    for &(run, ids) in recordings {
        names.push(NamedIds { run, ids })?;
    }
    let named = named_channels(alloc, &names)?;
    let mut line = String::new(alloc);
    let Some(found) = file_channels(alloc, &named)? else {
        return Ok(line);
    };
    for channel in &found {
        let id = id_in_file(&found, channel.of).unwrap_or(0);
        let part = format!(in alloc; "{id} ")?;
        line.push_str(part.as_str())?;
    }
    let part = format!(in alloc; "/ {}", time_channel(&found).unwrap_or(0))?;
    line.push_str(part.as_str())?;
    Ok(line)
}

#[test]
fn channels_that_meet_get_the_least_id_that_no_recording_has(rt: HostRuntime) -> Result<(), Fail> {
    for &(recordings, line) in &NUMBERINGS {
        let numbered = numbered(rt.alloc(), recordings)?;
        assert_same!(rt; numbered.as_str(), line);
    }
    Ok(())
}

#[test]
fn recordings_that_follow_one_another_are_a_run(rt: HostRuntime) -> Result<(), Fail> {
    let runs = runs_of(rt.alloc(), &[None, Some(0), None, Some(1)])?;
    let mut first = String::new(rt.alloc());
    for run in &runs {
        let part = format!(in rt.alloc(); "{run} ")?;
        first.push_str(part.as_str())?;
    }
    assert_same!(rt; first.as_str(), "0 0 2 0 ");
    Ok(())
}
