//! Lines on standard error, while a recording goes on.

use std::fmt::Display;
use std::io::Write;
use std::sync::{Mutex, Wait};

/// How many bytes a line has room for, with its line feed.
const MAX_LINE: usize = 64;

/// Prints a line as one write, so that no other program's text can stand in it. It is built without
/// an allocator, and a failed write is passed over.
pub fn print_error<R: Wait, E: Write + Drop, T: Display + Drop>(
    rt: &R,
    errors: &Mutex<E>,
    text: T,
) {
    let mut line = [0u8; MAX_LINE];
    let mut left = line.as_mut_slice();
    let _ = writeln!(&mut left, "{text}");
    let len = MAX_LINE.saturating_sub(left.len());
    let _ = errors.lock(rt).write_all(&line[..len]);
}
