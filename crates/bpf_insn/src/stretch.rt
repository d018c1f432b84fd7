//! A part of a text with its offset.
ghost use Rattle.std.specs.Prelude.{◌≡◌, ◌+◌, ◌<◌, ◌≤◌, ◌^◌, length, take, drop};

/// A part of a text: the offset of its first byte, and its bytes, which are borrowed.
#[derive(Clone, Copy)]
pub(crate) struct Stretch<'a> {
    pub(crate) at: usize,
    pub(crate) bytes: &'a [u8],
    ghost in_text: { at + length bytes.now < 2 ^ 64 },
}

impl<'a> Stretch<'a> {
    /// A whole text.
    pub(crate) fn of(text: &'a str) -> Stretch<'a>
        ensures at { result.at ≡ 0 }
        ensures bytes { result.bytes.now ≡ text.entry.now }
    {
        Stretch {
            at: 0,
            bytes: text.as_bytes(),
        }
    }

    /// The first `n` bytes, and what follows them.
    pub(crate) fn split_at(self, n: usize) -> (Stretch<'a>, Stretch<'a>)
        requires { n ≤ length self.bytes.now }
        ensures front_at { result.0.at ≡ self.entry.at }
        ensures front { result.0.bytes.now ≡ take n self.entry.bytes.now }
        ensures rest_at { result.1.at ≡ self.entry.at + n }
        ensures rest { result.1.bytes.now ≡ drop n self.entry.bytes.now }
    {
        let (front, rest) = self.bytes.split_at(n);
        (
            Stretch {
                at: self.at,
                bytes: front,
            },
            Stretch {
                at: self.at + n,
                bytes: rest,
            },
        )
    }
}
