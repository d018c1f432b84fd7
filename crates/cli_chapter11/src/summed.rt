//! An output that sums up what went out to it.

ghost use Rattle.std.specs.Prelude.{◌≡◌};
ghost use Rattle.cli_chapter11.specs.ByteSum.{sum_behind};

use std::io::{self, Write};

/// The sum of bytes, modulo 2^64, by which two passes over a recording are compared. It doesn't say where they
/// stand.
#[derive(Clone, Copy, Debug, PartialEq, Eq)]
pub(crate) struct ByteSum {
    pub sum: u64,
}

impl ByteSum {
    /// That of no bytes.
    pub(crate) const NONE: ByteSum = ByteSum { sum: 0 };

    /// That with further bytes.
    fn with(self, bytes: &[u8]) -> ByteSum
        ensures { result.sum ≡ sum_behind self.sum bytes.now }
    {
        let mut sum = self.sum;
        'bytes: for byte in bytes {
            sum = sum.wrapping_add(*byte as u64);
        }
        ByteSum { sum }
    }
}

/// An output, and the sum of what went out to it.
#[derive(Drop)]
pub(crate) struct Summed<W: Drop> {
    pub out: W,
    pub sum: ByteSum,
}

impl<W: Write + Drop> Write for Summed<W> {
    ghost use Rattle.std.specs.Prelude.{◌≡◌, IfOk, OnErr, take};
    ghost use Rattle.std.specs.Io.{WritesAtMost};
    ghost use Rattle.std.specs.Io.KnownBytes.{WriteAppends};
    ghost use Rattle.cli_chapter11.specs.ByteSum.{sum_behind};

    ghost contents = { λ w. W.contents w.out };

    fn write(&mut self, buf: &[u8]) -> io::Result<usize>
        ensures bound { WritesAtMost result buf.now }
        ensures bytes { WriteAppends (W.contents self.old.out)
            (W.contents self.new.out) result buf.now }
        ensures summed { IfOk result (λ n. self.new.sum.sum
            ≡ sum_behind self.old.sum.sum (take n buf.now)) }
        ensures same { OnErr result (self.new.sum ≡ self.old.sum) }
    {
        let count = self.out.write(buf)?;
        self.sum = self.sum.with(&buf[..count]);
        Ok(count)
    }

    fn flush(&mut self) -> io::Result<()> {
        self.out.flush()
    }
}
