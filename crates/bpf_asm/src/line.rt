//! A line: its labels, and then its instruction or the first fault.

ghost use Rattle.std.specs.Prelude.{◌≡◌, ◌<◌, [], ◌∷◌, Ok, Err, Some, MatchOption, MatchResult, IfSome};
ghost use Rattle.bpf_asm.specs.Lines.{labels_of, after_labels, insn_of_tokens, reading_of};
ghost use Rattle.bpf_asm.specs.Views.{byte_count, line_in, lines_in, tokens_in, labels_in, insn_data, reading_data};

use crate::fault::LineFault;
use crate::mnemonic::read_mnemonic;
use crate::operand::read_operand;
use crate::template::{Template, make_template};
use crate::text::{Text, next_byte};
use crate::token::{Token, check_tokens, next_token, skip_sign, take_name};

/// The labels at the front of a line.
#[derive(Clone, Copy)]
pub(crate) struct Labels<'a> {
    text: Text<'a>,
}

/// What a line whose tokens have no fault reads as.
#[derive(Clone, Copy)]
pub(crate) struct Reading<'a> {
    /// Its labels, which name the next instruction of the text.
    pub(crate) labels: Labels<'a>,
    /// The instruction after the labels if there is one, or the first fault of its mnemonic and
    /// operand.
    pub(crate) insn: Result<Option<Template<'a>>, LineFault>,
}

/// Reads the first line of a text; a fault of its tokens goes before all others.
pub(crate) fn read_line(text: Text<'_>) -> Result<Reading<'_>, LineFault>
    ensures { MatchResult result
        (λ reading. reading_of (line_in text.entry) ≡ Ok (reading_data reading))
        (λ fault. reading_of (line_in text.entry) ≡ Err fault) }
{
    check_tokens(text)?;
    let insn = read_insn(skip_labels(text));
    let labels = Labels { text };
    Ok(Reading { labels, insn })
}

/// What is left of a text after its first line; `None` where that is the last.
pub(crate) fn next_line(text: Text<'_>) -> Option<Text<'_>>
    ensures lines { MatchOption result
        (lines_in text.entry ≡ line_in text.entry ∷ [])
        (λ rest. lines_in text.entry ≡ line_in text.entry ∷ lines_in rest) }
    ensures shorter { IfSome result (λ rest. byte_count rest < byte_count text.entry) }
{
    let mut rest = text;
    'bytes: while let Some((byte, after)) = next_byte(rest) {
        rest = after;
        if byte == b'\n' {
            return Some(rest);
        }
    }
    None
}

/// The first label, and those after it.
pub(crate) fn next_label(labels: Labels<'_>) -> Option<(&[u8], Labels<'_>)>
    ensures { MatchOption result
        (labels_in labels.entry ≡ [])
        (λ r. labels_in labels.entry ≡ r.0.now ∷ labels_in r.1) }
{
    let (name, text) = split_label(labels.text)?;
    Some((name, Labels { text }))
}

/// The instruction that the first line's tokens are, without labels.
fn read_insn(text: Text<'_>) -> Result<Option<Template<'_>>, LineFault>
    ensures { insn_data result ≡ insn_of_tokens (tokens_in text.entry) }
{
    let Some((first, rest)) = next_token(text) else {
        return Ok(None);
    };
    let Token::Name(name) = first else {
        return Err(LineFault::Syntax);
    };
    let mnemonic = read_mnemonic(name).ok_or(LineFault::UnknownMnemonic)?;
    let operand = read_operand(rest).ok_or(LineFault::Syntax)?;
    let template = make_template(mnemonic, operand).ok_or(LineFault::OperandNotAllowed)?;
    Ok(Some(template))
}

/// What is left of a line after its labels.
fn skip_labels(text: Text<'_>) -> Text<'_>
    ensures { tokens_in result ≡ after_labels (tokens_in text.entry) }
{
    let mut rest = text;
    'labels: while let Some((_, after)) = split_label(rest) {
        rest = after;
    }
    rest
}

/// The label at the front of a line, and what is left after it.
fn split_label(text: Text<'_>) -> Option<(&[u8], Text<'_>)>
    ensures label { MatchOption result
        (labels_of (tokens_in text.entry) ≡ [])
        (λ r. labels_of (tokens_in text.entry) ≡ r.0.now ∷ labels_of (tokens_in r.1)) }
    ensures after { MatchOption result
        (after_labels (tokens_in text.entry) ≡ tokens_in text.entry)
        (λ r. after_labels (tokens_in text.entry) ≡ after_labels (tokens_in r.1)) }
    ensures shorter { IfSome result (λ r. byte_count r.1 < byte_count text.entry) }
{
    let (name, rest) = take_name(text)?;
    let rest = skip_sign(rest, b':')?;
    Some((name, rest))
}
