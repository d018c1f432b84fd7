//! The operand of an instruction, by its shape.

ghost use Rattle.std.specs.Prelude.{◌≡◌};
ghost use Rattle.std.specs.Option.{option_map};
ghost use Rattle.bpf_asm.specs.Operands.{operand_of, after_number, after_name, load_operand, after_hash, after_percent, targets, second_target, indexed_operand, header_length, number_in_brackets, after_index, at_end};
ghost use Rattle.bpf_asm.specs.Views.{tokens_in, operand_data, number_and_rest};

use crate::text::Text;
use crate::token::{Token, is_at_end, next_token, skip_sign, take_name, take_number};
use bpf_insn::Src;

/// An operand by its shape.
#[derive(Clone, Copy)]
pub(crate) enum Operand<'a> {
    Nothing,
    /// `[k]`
    Absolute(u32),
    /// `[x + k]`
    Indexed(u32),
    /// `M[k]`
    Scratch(u32),
    /// `#k`
    Immediate(u32),
    /// `k`
    Bare(u32),
    /// A name: a label, a register, or `len`.
    Word(&'a [u8]),
    /// `#` and a name.
    HashWord(&'a [u8]),
    /// `%x`, or `x` where it is no label.
    IndexRegister,
    /// `%a`, or `a` where it is no label.
    Accumulator,
    /// `#len`, or `len` where it is no label.
    Length,
    /// `m*([k]&n)`, by m, k and n.
    HeaderLength(u32, u32, u32),
    /// `#k` or `x`, with one label or two; the constant is 0 for `x`.
    Targets(Src, u32, &'a [u8], Option<&'a [u8]>),
}

/// The operand that the first line's tokens are; `None` where they have no operand's shape.
pub(crate) fn read_operand(text: Text<'_>) -> Option<Operand<'_>>
    ensures { option_map operand_data result ≡ operand_of (tokens_in text.entry) }
{
    let Some((first, rest)) = next_token(text) else {
        return Some(Operand::Nothing);
    };
    match first {
        Token::Number(number) => begins_with_number(number, rest),
        Token::Name(name) => begins_with_name(name, rest),
        Token::Sign(b'[') => load(rest),
        Token::Sign(b'#') => begins_with_hash(rest),
        Token::Sign(b'%') => begins_with_percent(rest),
        Token::Sign(_) => None,
    }
}

/// `k`, or `m*([k]&n)`.
fn begins_with_number(number: u32, rest: Text<'_>) -> Option<Operand<'_>>
    ensures { option_map operand_data result ≡ after_number number (tokens_in rest.entry) }
{
    if is_at_end(rest) {
        return Some(Operand::Bare(number));
    }
    read_header_length(number, rest)
}

/// `m*([k]&n)`, after `m`.
#[tactic(auto, unfolding(crate::specs::Operands::header_length))]
fn read_header_length(factor: u32, text: Text<'_>) -> Option<Operand<'_>>
    ensures { option_map operand_data result ≡ header_length factor (tokens_in text.entry) }
{
    let rest = skip_sign(text, b'*')?;
    let rest = skip_sign(rest, b'(')?;
    let (k, rest) = number_in_brackets(rest)?;
    let rest = skip_sign(rest, b'&')?;
    let (mask, rest) = take_number(rest)?;
    let rest = skip_sign(rest, b')')?;
    if_at_end(Operand::HeaderLength(factor, k, mask), rest)
}

/// A name, `M[k]`, or `x` with labels.
fn begins_with_name<'a>(name: &'a [u8], rest: Text<'a>) -> Option<Operand<'a>>
    ensures { option_map operand_data result ≡ after_name name.entry.now (tokens_in rest.entry) }
{
    if is_at_end(rest) {
        return Some(Operand::Word(name));
    }
    match name {
        b"M" => {
            let (k, rest) = number_in_brackets(rest)?;
            if_at_end(Operand::Scratch(k), rest)
        }
        b"x" => read_targets(Src::X, 0, rest),
        _ => None,
    }
}

/// `[k]`, `[x + k]` or `[%x + k]`, after the bracket.
fn load(text: Text<'_>) -> Option<Operand<'_>>
    ensures { option_map operand_data result ≡ load_operand (tokens_in text.entry) }
{
    if let Some((k, rest)) = take_number(text) {
        let rest = skip_sign(rest, b']')?;
        return if_at_end(Operand::Absolute(k), rest);
    }
    read_indexed(text)
}

/// `[x + k]` or `[%x + k]`, after the bracket.
#[tactic(auto, unfolding(crate::specs::Operands::indexed_operand))]
fn read_indexed(text: Text<'_>) -> Option<Operand<'_>>
    ensures { option_map operand_data result ≡ indexed_operand (tokens_in text.entry) }
{
    let rest = skip_index(text)?;
    let rest = skip_sign(rest, b'+')?;
    let (k, rest) = take_number(rest)?;
    let rest = skip_sign(rest, b']')?;
    if_at_end(Operand::Indexed(k), rest)
}

/// `#k`, `#k` with labels, or `#` and a name, after the sign.
fn begins_with_hash(text: Text<'_>) -> Option<Operand<'_>>
    ensures { option_map operand_data result ≡ after_hash (tokens_in text.entry) }
{
    let (first, rest) = next_token(text)?;
    match first {
        Token::Number(k) if is_at_end(rest) => Some(Operand::Immediate(k)),
        Token::Number(k) => read_targets(Src::K, k, rest),
        Token::Name(name) => if_at_end(Operand::HashWord(name), rest),
        Token::Sign(_) => None,
    }
}

/// `%x`, `%x` with labels, or `%a`, after the sign.
fn begins_with_percent(text: Text<'_>) -> Option<Operand<'_>>
    ensures { option_map operand_data result ≡ after_percent (tokens_in text.entry) }
{
    let (name, rest) = take_name(text)?;
    match name {
        b"x" if is_at_end(rest) => Some(Operand::IndexRegister),
        b"x" => read_targets(Src::X, 0, rest),
        b"a" => if_at_end(Operand::Accumulator, rest),
        _ => None,
    }
}

/// A comma and a label, once or twice.
#[tactic(auto, unfolding(crate::specs::Operands::targets))]
fn read_targets(src: Src, k: u32, text: Text<'_>) -> Option<Operand<'_>>
    ensures { option_map operand_data result ≡ targets src k (tokens_in text.entry) }
{
    let rest = skip_sign(text, b',')?;
    let (first, rest) = take_name(rest)?;
    read_second_target(src, k, first, rest)
}

/// A comma and a label, or nothing, after the first label.
fn read_second_target<'a>(src: Src, k: u32, first: &'a [u8], rest: Text<'a>) -> Option<Operand<'a>>
    ensures { option_map operand_data result
        ≡ second_target src k first.entry.now (tokens_in rest.entry) }
{
    if is_at_end(rest) {
        return Some(Operand::Targets(src, k, first, None));
    }
    let rest = skip_sign(rest, b',')?;
    let (second, rest) = take_name(rest)?;
    if_at_end(Operand::Targets(src, k, first, Some(second)), rest)
}

/// `[k]`, and what is left after it.
#[tactic(auto, unfolding(crate::specs::Operands::number_in_brackets))]
fn number_in_brackets(text: Text<'_>) -> Option<(u32, Text<'_>)>
    ensures { option_map number_and_rest result ≡ number_in_brackets (tokens_in text.entry) }
{
    let rest = skip_sign(text, b'[')?;
    let (k, rest) = take_number(rest)?;
    let rest = skip_sign(rest, b']')?;
    Some((k, rest))
}

/// What is left after the index register, `x` or `%x`.
fn skip_index(text: Text<'_>) -> Option<Text<'_>>
    ensures { option_map tokens_in result ≡ after_index (tokens_in text.entry) }
{
    let register = skip_sign(text, b'%').unwrap_or(text);
    match take_name(register) {
        Some((b"x", rest)) => Some(rest),
        _ => None,
    }
}

/// The operand, where no token is left.
fn if_at_end<'a>(operand: Operand<'a>, text: Text<'a>) -> Option<Operand<'a>>
    ensures { option_map operand_data result
        ≡ at_end (operand_data operand.entry) (tokens_in text.entry) }
{
    if is_at_end(text) { Some(operand) } else { None }
}
