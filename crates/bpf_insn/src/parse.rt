//! Reads a numeric listing: its program, or its first fault.
ghost use Rattle.std.specs.Prelude.{◌≡◌, ◌+◌, ◌≤◌, ◌<◌, ◌^◌, ◌⊎◌, ◌∷◌, [], ◌||◌, length, not, MatchResult, MatchOption, IfOk, IfErr, IfSome, Ok, Err, SomeIff, ◌↔◌, IsTrue};
ghost use Rattle.std.specs.List.{list_all, prefix_len, suffix_len};
ghost use Rattle.std.specs.Char.{is_ascii_digit};
ghost use Rattle.std.specs.Str.Parse.{digits_value};
ghost use Rattle.bpf_insn.specs.Views.{stretch_data, pieces_in, words_in, numerals_in, is_in_span};
ghost use Rattle.bpf_insn.specs.declared.parse.ListingFault.TheVariants.{Memory};
ghost use Rattle.bpf_insn.specs.Listing.{listing, pieces_from, ReadsAnInsn, field_of, count_of, insn_of, insn_of_fields, is_listing_blank, is_padding, is_separator};

use crate::insn::Insn;
use crate::stretch::Stretch;
use std::alloc::{AllocFailed, Global};
use thiserror::Error;

/// Why a text is no listing. Places are counted in bytes, from 0.
#[derive(Clone, Copy, Debug, PartialEq, Eq, Error)]
pub enum ListingFault {
    /// The piece that begins here is not one number where the count is due, or not four numbers
    /// where an instruction is; or the text ends here without a count.
    #[error("listing 1 Syntax {at}")]
    Syntax { at: usize },
    /// The first number is not the count of the instructions that were found.
    #[error("listing 2 Count {said} {found}")]
    Count { said: u16, found: usize },
    /// The number that begins here is too large for its field.
    #[error("listing 3 Range {at}")]
    Range { at: usize },
    /// Out of memory for the program.
    #[error("memory")]
    Memory,
}

impl<T: Drop> From<AllocFailed<T>> for ListingFault {
    ghost from_gives = { λ _ fault. fault ≡ Memory };

    fn from(_error: AllocFailed<T>) -> ListingFault {
        ListingFault::Memory
    }
}

/// Reads a listing: the count of instructions, and `code jt jf k` of each in decimal, separated
/// by commas or line feeds. Returns the first fault in the text's order, a wrong count last.
pub fn parse_listing(alloc: Global, text: &str) -> Result<Vec<Insn>, ListingFault>
    // The program or its first fault, but for out of memory.
    ensures read { MatchResult result
        (λ program. listing text.now ≡ Ok program.items)
        (λ fault. (fault ≡ ListingFault.Memory) ⊎ (listing text.now ≡ Err fault)) }
    // Out of memory is returned only for an instruction that is read, before any fault.
    ensures memory { IfErr result (λ fault.
        fault ≡ ListingFault.Memory → ReadsAnInsn (pieces_from 0 text.now)) }
{
    let Some((first, mut rest)) = next_piece(Stretch::of(text)) else {
        return Err(ListingFault::Syntax { at: text.len() });
    };
    let said = read_count(first)?;
    let mut program = Vec::new(alloc);
    'pieces: while let Some((piece, after)) = next_piece(rest) {
        let insn = read_insn(piece)?;
        program.push(insn)?;
        rest = after;
    }
    let found = program.len();
    if found != usize::from(said) {
        return Err(ListingFault::Count { said, found });
    }
    Ok(program)
}

/// The count of instructions.
fn read_count(piece: Stretch<'_>) -> Result<u16, ListingFault>
    ensures { MatchResult result
        (λ count. count_of (stretch_data piece.entry) ≡ Ok count)
        (λ fault. count_of (stretch_data piece.entry) ≡ Err fault) }
{
    let syntax = ListingFault::Syntax { at: piece.at };
    let (count, rest) = next_numeral(piece).ok_or(syntax)?;
    if next_word(rest).is_some() {
        return Err(syntax);
    }
    Ok(read_field(count, u32::from(u16::MAX))? as u16)
}

/// One instruction: its shape is judged before the ranges of its numbers.
fn read_insn(piece: Stretch<'_>) -> Result<Insn, ListingFault>
    ensures { MatchResult result
        (λ insn. insn_of (stretch_data piece.entry) ≡ Ok insn)
        (λ fault. insn_of (stretch_data piece.entry) ≡ Err fault) }
{
    let syntax = ListingFault::Syntax { at: piece.at };
    let Some((code, rest)) = next_numeral(piece) else {
        return Err(syntax);
    };
    let Some((jt, rest)) = next_numeral(rest) else {
        return Err(syntax);
    };
    let Some((jf, rest)) = next_numeral(rest) else {
        return Err(syntax);
    };
    let Some((k, rest)) = next_numeral(rest) else {
        return Err(syntax);
    };
    if next_word(rest).is_some() {
        return Err(syntax);
    }
    read_fields(code, jt, jf, k)
}

/// An instruction of four numbers, each of which its field can hold.
fn read_fields(
    code: Stretch<'_>,
    jt: Stretch<'_>,
    jf: Stretch<'_>,
    k: Stretch<'_>,
) -> Result<Insn, ListingFault>
    requires code { IsTrue (list_all is_ascii_digit code.bytes.now) }
    requires jt { IsTrue (list_all is_ascii_digit jt.bytes.now) }
    requires jf { IsTrue (list_all is_ascii_digit jf.bytes.now) }
    requires k { IsTrue (list_all is_ascii_digit k.bytes.now) }
    ensures { result ≡ insn_of_fields (stretch_data code.entry) (stretch_data jt.entry)
        (stretch_data jf.entry) (stretch_data k.entry) }
{
    Ok(Insn {
        code: read_field(code, u32::from(u16::MAX))? as u16,
        jt: read_field(jt, u32::from(u8::MAX))? as u8,
        jf: read_field(jf, u32::from(u8::MAX))? as u8,
        k: read_field(k, u32::MAX)?,
    })
}

/// A number of decimal digits that its field can hold.
fn read_field(word: Stretch<'_>, most: u32) -> Result<u32, ListingFault>
    requires { IsTrue (list_all is_ascii_digit word.bytes.now) }
    ensures read { MatchResult result
        (λ value. field_of most (stretch_data word.entry) ≡ Ok value)
        (λ fault. field_of most (stretch_data word.entry) ≡ Err fault) }
    ensures within { IfOk result (λ value. value ≤ most) }
{
    match value_of(word.bytes) {
        Some(value) if value <= most => Ok(value),
        _ => Err(ListingFault::Range { at: word.at }),
    }
}

/// The number that decimal digits write; `None` if it is over 2^32 - 1.
fn value_of(digits: &[u8]) -> Option<u32>
    requires { IsTrue (list_all is_ascii_digit digits.now) }
    ensures { SomeIff result (digits_value 10 digits.now < 2 ^ 32) (digits_value 10 digits.now) }
{
    let mut value = 0u32;
    'digits: for digit in digits {
        value = value
            .checked_mul(10)?
            .checked_add(u32::from(*digit - b'0'))?;
    }
    Some(value)
}

/// The first piece, and the text after it.
fn next_piece(text: Stretch<'_>) -> Option<(Stretch<'_>, Stretch<'_>)>
    ensures pieces { MatchOption result
        (pieces_in text.entry ≡ [])
        (λ r. pieces_in text.entry ≡ stretch_data r.0 ∷ pieces_in r.1) }
    ensures shorter { IfSome result (λ r. length r.1.bytes.now < length text.entry.bytes.now) }
{
    let (_, text) = text.split_at(Span::Gap.len_in(text.bytes));
    if text.bytes.is_empty() {
        return None;
    }
    let (padded, rest) = text.split_at(Span::Piece.len_in(text.bytes));
    let (piece, _) = padded.split_at(padded.bytes.len() - end_padding_len(padded.bytes));
    Some((piece, rest))
}

/// The first word, where it is decimal digits, and what follows it.
fn next_numeral(piece: Stretch<'_>) -> Option<(Stretch<'_>, Stretch<'_>)>
    ensures words { MatchOption result
        (numerals_in piece.entry ≡ None ⊎ words_in piece.entry ≡ [])
        (λ r. words_in piece.entry ≡ stretch_data r.0 ∷ words_in r.1) }
    ensures digits { IfSome result (λ r. IsTrue (list_all is_ascii_digit r.0.bytes.now)) }
{
    let (word, rest) = next_word(piece)?;
    if all_digits(word.bytes) {
        Some((word, rest))
    } else {
        None
    }
}

fn all_digits(bytes: &[u8]) -> bool
    ensures { result ≡ list_all is_ascii_digit bytes.now }
{
    bytes.iter().all(|byte| byte.is_ascii_digit())
}

/// The first word of a piece, and what follows it.
fn next_word(piece: Stretch<'_>) -> Option<(Stretch<'_>, Stretch<'_>)>
    ensures { MatchOption result
        (words_in piece.entry ≡ [])
        (λ r. words_in piece.entry ≡ stretch_data r.0 ∷ words_in r.1) }
{
    let (_, piece) = piece.split_at(Span::Blanks.len_in(piece.bytes));
    if piece.bytes.is_empty() {
        return None;
    }
    Some(piece.split_at(Span::Word.len_in(piece.bytes)))
}

/// Bytes of a listing that stand together.
#[derive(Clone, Copy)]
enum Span {
    /// Separators and padding, before a piece.
    Gap,
    /// Bytes up to the next separator.
    Piece,
    /// Blanks, before a word.
    Blanks,
    /// Bytes up to the next blank.
    Word,
}

impl Span {
    /// Whether a byte is of this kind.
    fn has(self, byte: u8) -> bool
        ensures { result ≡ is_in_span self byte }
    {
        match self {
            Span::Gap => is_separator_byte(byte) || is_padding_byte(byte),
            Span::Piece => !is_separator_byte(byte),
            Span::Blanks => is_blank_byte(byte),
            Span::Word => !is_blank_byte(byte),
        }
    }

    /// The number of bytes of this kind in front.
    fn len_in(self, bytes: &[u8]) -> usize
        ensures length { result ≡ prefix_len (is_in_span self) bytes.now }
        ensures within { result ≤ length bytes.now }
    {
        bytes.iter().take_while(|byte| self.has(**byte)).count()
    }
}

/// The number of padding bytes at the end.
fn end_padding_len(bytes: &[u8]) -> usize
    ensures length { result ≡ suffix_len is_padding bytes.now }
    ensures within { result ≤ length bytes.now }
{
    bytes
        .iter()
        .rev()
        .take_while(|byte| is_padding_byte(**byte))
        .count()
}

/// A comma or a line feed, which separate pieces.
fn is_separator_byte(byte: u8) -> bool
    ensures { result ≡ is_separator byte }
{
    matches!(byte, b',' | b'\n')
}

/// A space, a tab or a carriage return, which may stand round a piece.
fn is_padding_byte(byte: u8) -> bool
    ensures { result ≡ is_padding byte }
{
    is_blank_byte(byte) || byte == b'\r'
}

/// A space or a tab, which separate the numbers of a piece.
fn is_blank_byte(byte: u8) -> bool
    ensures { result ≡ is_listing_blank byte }
{
    matches!(byte, b' ' | b'\t')
}
