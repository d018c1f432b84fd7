//! An OUT before it is created.

use std::io::{BufWriter, Write};

/// An OUT that isn't there yet.
pub(crate) trait Uncreated {
    ghost use Rattle.std.specs.Prelude.{ℕ, ◌≡◌, List, Option, IfOk};
    ghost use Rattle.std.specs.Io.Buffered.{writer_contents};

    /// What it is created as.
    type File: Write + Drop;

    /// Why it can't be created.
    type Fault: Drop;

    // What it holds once it is created, if it says that.
    ghost held: { Self → Option (List ℕ) };

    /// Creates it, behind a buffer.
    fn create(&mut self) -> Result<BufWriter<Self::File>, Self::Fault>
        ensures { IfOk result (λ output.
            writer_contents Self.File.contents output ≡ held self.old) };
}
