//! The tokens of a line, one by one.

ghost use Rattle.std.specs.Prelude.{◌≡◌, ◌≢◌, ◌+◌, ◌≤◌, ◌<◌, ◌↔◌, ◌∷◌, [], length, false, IsTrue, MatchOption, MatchResult, Ok, Err, IfSome};
ghost use Rattle.std.specs.List.{prefix_len};
ghost use Rattle.std.specs.Option.{option_map};
ghost use Rattle.bpf_asm.specs.Operands.{after_sign, first_number, first_name};
ghost use Rattle.bpf_asm.specs.Tokens.{is_text_blank, is_word, is_sign, are_joined, joined_len, token_of, line_tokens, lexemes};
ghost use Rattle.bpf_asm.specs.Views.{byte_count, lexemes_in, line_in, tokens_in, token_data, number_and_rest, name_and_rest};

use crate::fault::LineFault;
use crate::number::read_number;
use crate::text::{Text, next_byte};

/// A token of a line.
#[derive(Clone, Copy)]
pub(crate) enum Token<'a> {
    Name(&'a [u8]),
    Number(u32),
    /// One of the signs, by its byte.
    Sign(u8),
}

/// `Ok` if all tokens of the first line are valid, else the first fault among them.
#[tactic(auto, unfolding(crate::specs::Views::tokens_in))]
pub(crate) fn check_tokens(text: Text<'_>) -> Result<(), LineFault>
    ensures { MatchResult result
        (λ _. line_tokens (line_in text.entry) ≡ Ok (tokens_in text.entry))
        (λ fault. line_tokens (line_in text.entry) ≡ Err fault) }
{
    let mut rest = text;
    'lexemes: while let Some((lexeme, after)) = next_lexeme(rest) {
        let _ = read_token(lexeme)?;
        rest = after;
    }
    Ok(())
}

/// The first token of the first line, and what is left after it; None at the line's end, or at a
/// fault.
#[tactic(auto, unfolding(crate::specs::Views::tokens_in))]
pub(crate) fn next_token(text: Text<'_>) -> Option<(Token<'_>, Text<'_>)>
    ensures found { MatchOption result
        (tokens_in text.entry ≡ [])
        (λ r. tokens_in text.entry ≡ token_data r.0 ∷ tokens_in r.1) }
    ensures shorter { IfSome result (λ r. byte_count r.1 < byte_count text.entry) }
{
    let (lexeme, after) = next_lexeme(text)?;
    let token = read_token(lexeme).ok()?;
    Some((token, after))
}

/// What is left after this sign.
pub(crate) fn skip_sign(text: Text<'_>, sign: u8) -> Option<Text<'_>>
    ensures after { option_map tokens_in result ≡ after_sign sign (tokens_in text.entry) }
    ensures shorter { IfSome result (λ r. byte_count r < byte_count text.entry) }
{
    match next_token(text) {
        Some((Token::Sign(first), rest)) if first == sign => Some(rest),
        _ => None,
    }
}

/// A number, and what is left after it.
pub(crate) fn take_number(text: Text<'_>) -> Option<(u32, Text<'_>)>
    ensures { option_map number_and_rest result ≡ first_number (tokens_in text.entry) }
{
    match next_token(text) {
        Some((Token::Number(number), rest)) => Some((number, rest)),
        _ => None,
    }
}

/// A name, and what is left after it.
pub(crate) fn take_name(text: Text<'_>) -> Option<(&[u8], Text<'_>)>
    ensures first { option_map name_and_rest result ≡ first_name (tokens_in text.entry) }
    ensures shorter { IfSome result (λ r. byte_count r.1 < byte_count text.entry) }
{
    match next_token(text) {
        Some((Token::Name(name), rest)) => Some((name, rest)),
        _ => None,
    }
}

/// Whether no token is left.
pub(crate) fn is_at_end(text: Text<'_>) -> bool
    ensures { IsTrue result ↔ (tokens_in text.entry ≡ []) }
{
    next_token(text).is_none()
}

/// What a spelling is.
fn read_token(lexeme: &[u8]) -> Result<Token<'_>, LineFault>
    ensures { MatchResult result
        (λ token. token_of lexeme.entry.now ≡ Ok (token_data token))
        (λ fault. token_of lexeme.entry.now ≡ Err fault) }
{
    let Some((&first, rest)) = lexeme.split_first() else {
        return Err(LineFault::Syntax);
    };
    if first.is_ascii_digit() || first == b'-' && !rest.is_empty() {
        let number = read_number(lexeme).ok_or(LineFault::Number)?;
        Ok(Token::Number(number))
    } else if is_word(first) {
        Ok(Token::Name(lexeme))
    } else if is_sign(first) {
        Ok(Token::Sign(first))
    } else {
        Err(LineFault::Syntax)
    }
}

/// The spelling of the first line's first token, and what is left after it.
fn next_lexeme(text: Text<'_>) -> Option<(&[u8], Text<'_>)>
    ensures found { MatchOption result
        (lexemes_in text.entry ≡ [])
        (λ r. lexemes_in text.entry ≡ r.0.now ∷ lexemes_in r.1) }
    ensures shorter { IfSome result (λ r. byte_count r.1 < byte_count text.entry) }
{
    let (from, first, after) = next_solid(text)?;
    let more = joined_len(first, after.bytes);
    let (_, bytes) = after.bytes.split_at(more);
    let commented = after.commented;
    Some((&from[..1 + more], Text { bytes, commented }))
}

/// The first byte of the first line that is no blank: the bytes from it on, it, and what is left
/// after it.
fn next_solid(text: Text<'_>) -> Option<(&[u8], u8, Text<'_>)>
    ensures found { MatchOption result
        (lexemes_in text.entry ≡ [])
        (λ r. lexemes_in text.entry ≡ lexemes (r.1 ∷ line_in r.2)) }
    ensures solid { IfSome result (λ r. is_text_blank r.1 ≡ false) }
    ensures bytes { IfSome result (λ r. r.0.now ≡ r.1 ∷ r.2.bytes.now) }
    ensures outside { IfSome result (λ r. r.1 ≢ 47 → r.2.commented ≡ 0) }
    ensures shorter { IfSome result (λ r. length r.0.now ≤ byte_count text.entry) }
{
    let mut rest = text;
    'blanks: while let Some((byte, after)) = next_byte(rest) {
        if byte == b'\n' {
            return None;
        }
        if !is_blank(byte) {
            return Some((rest.bytes, byte, after));
        }
        rest = after;
    }
    None
}

/// How many of these bytes are of one token with the byte before them.
fn joined_len(byte: u8, bytes: &[u8]) -> usize
    ensures value { result ≡ joined_len byte bytes.now }
    ensures within { result ≤ length bytes.now }
{
    if are_joined(byte, bytes) {
        word_len(bytes)
    } else {
        0
    }
}

/// How many letters, digits and `_` stand in front.
fn word_len(bytes: &[u8]) -> usize
    ensures value { result ≡ prefix_len is_word bytes.now }
    ensures within { result ≤ length bytes.now }
{
    bytes.iter().take_while(|byte| is_word(**byte)).count()
}

/// Whether a byte is of one token with the next of these.
fn are_joined(byte: u8, bytes: &[u8]) -> bool
    ensures { result ≡ are_joined byte bytes.now }
{
    match bytes.first() {
        Some(next) => { is_word(byte) && is_word(*next) || byte == b'-' && next.is_ascii_digit() }
        None => false,
    }
}

/// A space, a tab or a carriage return.
fn is_blank(byte: u8) -> bool
    ensures { result ≡ is_text_blank byte }
{
    matches!(byte, b' ' | b'\t' | b'\r')
}

/// A letter, a digit or `_`.
fn is_word(byte: u8) -> bool
    ensures { result ≡ is_word byte }
{
    byte.is_ascii_alphanumeric() || byte == b'_'
}

/// A sign, which is a token by itself.
fn is_sign(byte: u8) -> bool
    ensures { result ≡ is_sign byte }
{
    b"#[]()+*&,:%".contains(&byte)
}
