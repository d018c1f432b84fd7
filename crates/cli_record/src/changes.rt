//! Changes of filters from lines of an input, and what is answered to them.

ghost use Rattle.std.specs.Prelude.{ℕ, ◌≡◌};
ghost use Rattle.cli_record_streams.specs.declared.asked.Reply.TheVariants.{Refused};

use cli_record_streams::{Asked, Lines, Refusal, Reply, next_asked, print_error};
use cli_streams::CommandEnding;
use rec_run::{Answer, Change, Control, ControlLog, Told};
use std::io::{self, Read, Write};
use std::rt::Files;
use std::sync::{Mutex, Wait};

/// Changes by the lines of an input. Each line is answered on standard error.
#[derive(Drop)]
pub(crate) struct LineControl<'r, R: Sync, I: Send + Drop, E: Send + Drop> {
    rt: &'r R,
    errors: &'r Mutex<E>,
    lines: Lines<I>,
    log: ControlLog,
    /// Whether it ended since there was no memory for a line or for its change.
    lacks_memory: bool,
}

impl<'r, R: AllocGlobal + Sync, I: Read + Send + Drop, E: Send + Drop> LineControl<'r, R, I, E> {
    ghost use Rattle.std.specs.Prelude.{◌≡◌, ◌↔◌, [], false, IfOk, IfErr, IsOk};

    /// A control that has read nothing.
    pub(crate) fn new(
        rt: &'r R,
        input: I,
        errors: &'r Mutex<E>,
    ) -> io::Result<LineControl<'r, R, I, E>>
        ensures given { IfOk result (λ control. control.log.given ≡ []) }
        ensures told { IfOk result (λ control. control.log.answered ≡ []) }
        ensures goes_on { IfOk result (λ control. control.log.ended ≡ false) }
    {
        Ok(LineControl {
            rt,
            errors,
            lines: Lines::new(rt.alloc(), input)?,
            log: ControlLog::new(rt.alloc()),
            lacks_memory: false,
        })
    }

    /// How it ended: at its last line, or since there was no memory.
    pub(crate) fn outcome(&self) -> Result<(), CommandEnding<'static>>
        ensures well { IsOk result ↔ (self.now.lacks_memory ≡ false) }
        ensures memory { IfErr result (λ ending. ending ≡ CommandEnding.Memory) }
    {
        if self.lacks_memory {
            return Err(CommandEnding::Memory);
        }
        Ok(())
    }
}

impl<
    'r,
    R: AllocGlobal + Files + Wait + Sync,
    I: Read + Send + Drop,
    E: Write + Send + Drop,
> Control for LineControl<'r, R, I, E> {
    ghost given = { λ c. c.log.given };

    ghost answered = { λ c. c.log.answered };

    ghost ended = { λ c. c.log.ended };

    fn next(&mut self) -> Option<Change> {
        let read = next_asked(self.rt, &mut self.lines, self.errors);
        let Ok(Some(Asked { channel, program })) = read else {
            self.lacks_memory = read.is_err();
            return self.log.end();
        };
        let change = self.log.give(Change { channel, program });
        self.lacks_memory = change.is_none();
        change
    }

    fn told(&mut self, told: &Told) {
        print_error(self.rt, self.errors, reply_to(*told));
        self.log.tell(told);
    }
}

/// What is answered to a change that was asked for.
fn reply_to(told: Told) -> Reply
    ensures installed { (version mark : ℕ) → told.answer ≡ Answer.Installed version mark
        → result ≡ Reply.Installed told.channel version mark }
    ensures full { told.answer ≡ Answer.VersionsFull
        → result ≡ Refused told.channel Refusal.VersionsFull }
    ensures none { told.answer ≡ Answer.NoChannel
        → result ≡ Refused told.channel Refusal.NoChannel }
{
    let Told { channel, answer } = told;
    match answer {
        Answer::Installed { version, mark } => Reply::Installed {
            channel,
            version,
            mark,
        },
        Answer::VersionsFull => Reply::Refused(channel, Refusal::VersionsFull),
        Answer::NoChannel => Reply::Refused(channel, Refusal::NoChannel),
    }
}
