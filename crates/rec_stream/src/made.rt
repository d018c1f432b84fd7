//! What a stream is made of.

use ch11_clock::Clock;
use ch11_file::FileSetup;

/// What a stream's setup record says, and its clock.
#[derive(Clone, Copy, Debug)]
pub(crate) struct Made<'a> {
    pub(crate) setup: &'a FileSetup<'a>,
    pub(crate) clock: &'a Clock,
}
