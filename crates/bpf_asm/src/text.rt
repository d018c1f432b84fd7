//! A text as its lines are read from it: a byte of a comment counts as a blank.

ghost use Rattle.std.specs.Prelude.{◌≡◌, ◌≢◌, ◌+◌, ◌<◌, ◌≤◌, ◌∷◌, [], length, MatchOption, IfSome};
ghost use Rattle.std.specs.List.{position_or_len};
ghost use Rattle.bpf_asm.specs.Blanked.{is_line_feed, blank_of, without_comments, closing_len};
ghost use Rattle.bpf_asm.specs.Views.{bytes_in, byte_count};

/// What is left of a text.
#[derive(Clone, Copy)]
pub(crate) struct Text<'a> {
    /// The bytes that are left.
    pub(crate) bytes: &'a [u8],
    /// How many of them belong to a comment that began before.
    pub(crate) commented: usize,
}

impl<'a> Text<'a> {
    /// A whole text.
    pub(crate) fn of(text: &'a str) -> Text<'a>
        ensures { bytes_in result ≡ without_comments text.entry.now }
    {
        Text {
            bytes: text.as_bytes(),
            commented: 0,
        }
    }
}

/// The first byte of a text, a byte of a comment as its blank, and what is left after it.
pub(crate) fn next_byte(text: Text<'_>) -> Option<(u8, Text<'_>)>
    ensures first { MatchOption result
        (bytes_in text.entry ≡ [])
        (λ r. bytes_in text.entry ≡ r.0 ∷ bytes_in r.1) }
    // A byte that is no blank stands in the text as it is, and only a slash may begin a comment.
    ensures solid { IfSome result (λ r.
        r.0 ≢ 10 → r.0 ≢ 32 → text.entry.bytes.now ≡ r.0 ∷ r.1.bytes.now) }
    ensures outside { IfSome result (λ r.
        r.0 ≢ 10 → r.0 ≢ 32 → r.0 ≢ 47 → r.1.commented ≡ 0) }
    ensures shorter { IfSome result (λ r. byte_count r.1 < byte_count text.entry) }
{
    let (&byte, bytes) = text.bytes.split_first()?;
    if text.commented > 0 {
        let commented = text.commented - 1;
        return Some((as_blank(byte), Text { bytes, commented }));
    }
    let (byte, commented) = if byte == b';' {
        (b' ', line_len(bytes))
    } else if text.bytes.starts_with(b"/*") {
        match closing_len(&bytes[1..]) {
            Some(len) => (b' ', 1 + len),
            None => (b'/', bytes.len()),
        }
    } else {
        (byte, 0)
    };
    Some((byte, Text { bytes, commented }))
}

/// What a byte of a comment counts as.
fn as_blank(byte: u8) -> u8
    ensures { result ≡ blank_of byte }
{
    if byte == b'\n' { b'\n' } else { b' ' }
}

/// How many bytes stand before the first line feed.
fn line_len(bytes: &[u8]) -> usize
    ensures { result ≡ position_or_len is_line_feed bytes.now }
{
    bytes.iter().take_while(|byte| **byte != b'\n').count()
}

/// How many bytes there are to the first `*/`, with these two.
fn closing_len(bytes: &[u8]) -> Option<usize>
    ensures value { result ≡ closing_len bytes.now }
    ensures within { IfSome result (λ n. n ≤ length bytes.now) }
{
    let mut passed = 0;
    let mut rest = bytes;
    'bytes: while let Some((_, after)) = rest.split_first() {
        if rest.starts_with(b"*/") {
            return Some(passed + 2);
        }
        passed += 1;
        rest = after;
    }
    None
}
