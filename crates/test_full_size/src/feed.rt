//! The feed of a channel, whose records are made as they are read.

use crate::channel::Channel;
use crate::steps::Shared;
use std::io;
use std::io::{ErrorKind, Read};
use std::sync::Arc;

/// The feed of a channel.
#[derive(Drop)]
pub(crate) struct Feed {
    rt: HostRuntime,
    channel: Channel,
    steps: Shared,
    /// The number of the next frame.
    next: u32,
    record: Vec<u8>,
    /// How much of the record was given.
    given: usize,
}

impl Feed {
    /// The feed of a channel, of which nothing was read: `None` if it can't share the steps.
    pub(crate) fn new(rt: HostRuntime, steps: &Shared, channel: Channel) -> Option<Feed> {
        Some(Feed {
            rt,
            channel,
            steps: Arc::try_clone(steps).ok()?,
            next: 0,
            record: Vec::new(rt.alloc()),
            given: 0,
        })
    }

    /// Whether the next frame may come: where the channel has many versions, the frame's own is
    /// waited for.
    fn is_due(&self) -> bool {
        let version = u64::from(self.channel.version_at(self.next));
        self.channel.versions() == 1 || self.steps.ask(&self.rt, version)
    }

    /// Makes the next record, if there is one.
    fn advance(&mut self) -> io::Result<()> {
        self.record.clear();
        self.given = 0;
        if self.next >= self.channel.frames() {
            return Ok(());
        }
        if !self.is_due() {
            return Err(io::Error::from(ErrorKind::TimedOut));
        }
        self.channel.push_record(self.next, &mut self.record)?;
        self.next = self.next.saturating_add(1);
        Ok(())
    }
}

impl Read for Feed {
    fn read(&mut self, buf: &mut [u8]) -> io::Result<usize> {
        if self.given >= self.record.len() {
            self.advance()?;
        }
        let left = self.record.get(self.given..).unwrap_or(&[]);
        let count = left.len().min(buf.len());
        buf[..count].copy_from_slice(&left[..count]);
        self.given = self.given.saturating_add(count);
        Ok(count)
    }
}
