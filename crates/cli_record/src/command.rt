//! The command that records.

use crate::changes::LineControl;
use crate::fault::output_fault;
use crate::files::NamedFiles;
use crate::jobs::jobs_of;
use crate::report::print_report;
use cli_record_streams::{AnnouncedOutput, Retried, read_settings};
use cli_streams::{CommandEnding, Inputs, LockFile, RecordingFault, create_output};
use rec_run::{Done, RunFault, jobs_ok, record};
use rec_words::SettingsFault;
use std::io::{Read, Write};
use std::rt::Files;
use std::sync::{Mutex, Wait};
use std::thread::Threads;

/// `record SETTINGS OUT`: records the channels of the settings into OUT, and prints a line for each
/// channel and how much was written, when OUT is on its disk. Lines of `input` change filters
/// meanwhile, and are answered on `errors`, where a failure of OUT is told at once too. An OUT that
/// is one of the inputs, or that another program has locked, is refused.
pub fn record_channels<
    'a,
    R: AllocGlobal + Files + Threads + Wait + Sync,
    I: Read + Send + Drop,
    O: Write,
    E: Write + Send + Drop,
>(
    rt: &R,
    settings: &'a str,
    out: &'a str,
    input: I,
    output: &mut O,
    errors: &Mutex<E>,
) -> Result<(), CommandEnding<'a>>
where
    R::File: Send + LockFile,
    R::Dir: Send,
{
    let alloc = rt.alloc();
    let mut inputs = Inputs::new(alloc);
    let wanted = read_settings(rt, settings, &mut inputs)?;
    let (ring, version) = (wanted.ring, wanted.version);
    let files = NamedFiles { rt };
    let jobs = jobs_of(alloc, &files, wanted.limit, wanted.channels, &mut inputs)?;
    if !jobs_ok(jobs.as_slice()) {
        return Err(CommandEnding::Settings(SettingsFault::Channels));
    }
    let Ok(control) = LineControl::new(rt, input, errors) else {
        return Err(CommandEnding::Memory);
    };
    inputs.add_streams(rt)?;
    inputs.refuse_output(rt, out)?;
    let file = create_output(rt, &inputs, out)?;
    let created = AnnouncedOutput::new(rt, errors, Retried { file });
    match record(rt, alloc, jobs, ring, version, control, created) {
        Ok(
            Done {
                report,
                control,
                out: recorded,
            },
        ) => {
            recorded.keep().map_err(|_| CommandEnding::File(out))?;
            print_report(alloc, output, &report)?;
            control.outcome()
        }
        Err(RunFault::Memory) => Err(CommandEnding::Memory),
        Err(RunFault::Write { fault, out, .. }) => Err(out.ending(output_fault(fault))),
        Err(RunFault::Link) => Err(CommandEnding::Recording(RecordingFault::Link)),
        Err(RunFault::History) => Err(CommandEnding::Recording(RecordingFault::History)),
    }
}
