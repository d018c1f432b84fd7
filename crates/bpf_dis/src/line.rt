//! The line of an instruction.

ghost use Rattle.std.specs.Prelude.{◌≡◌, ◌<◌, ◌^◌, ◌++◌, codes, OnOk, string_bytes};
ghost use Rattle.bpf_insn.specs.Forms.{form};
ghost use Rattle.bpf_insn.specs.Views.{targets_data};
ghost use Rattle.bpf_dis.specs.ProgramText.{form_text, insn_text, label_text, labels_text, line_text, source_text};

use bpf_insn::{
    Form, Insn, Src, Targets, cond_mnemonic, form_of, jump_targets, load_mnemonic, op_mnemonic,
};
use std::alloc::AllocError;

/// Writes the line of the instruction with this index.
pub(crate) fn write_line(
    text: &mut String,
    labelled: bool,
    insn: Insn,
    at: usize,
) -> Result<(), AllocError>
    requires { at < 2 ^ 62 }
    ensures { OnOk result (string_bytes text.new
        ≡ string_bytes text.old ++ (line_text labelled at insn ++ codes "\n")) }
{
    write_label(text, labelled, at)?;
    write_insn(text, insn, at)?;
    text.push('\n')
}

/// Writes the label of a line that has one.
fn write_label(text: &mut String, labelled: bool, at: usize) -> Result<(), AllocError>
    ensures { OnOk result
        (string_bytes text.new ≡ string_bytes text.old ++ label_text labelled at) }
{
    if labelled {
        write!(text, "L{at}: ")
    } else {
        Ok(())
    }
}

/// Writes the instruction with this index; nothing where its code is not legal.
fn write_insn(text: &mut String, insn: Insn, at: usize) -> Result<(), AllocError>
    requires { at < 2 ^ 62 }
    ensures { OnOk result
        (string_bytes text.new ≡ string_bytes text.old ++ insn_text (form insn.code) at insn) }
{
    match form_of(insn) {
        Some(form) => write_form(text, form, insn, at),
        None => Ok(()),
    }
}

/// Writes the instruction with this index, which has this form.
fn write_form(text: &mut String, form: Form, insn: Insn, at: usize) -> Result<(), AllocError>
    requires { at < 2 ^ 62 }
    ensures { OnOk result
        (string_bytes text.new ≡ string_bytes text.old ++ form_text form at insn) }
{
    let k = insn.k;
    match form {
        Form::LdImm => write!(text, "ld #{k}"),
        Form::LdAbs(size) => write!(text, "{} [{k}]", load_mnemonic(size)),
        Form::LdInd(size) => write!(text, "{} [x + {k}]", load_mnemonic(size)),
        Form::LdMem => write!(text, "ld M[{k}]"),
        Form::LdLen => text.push_str("ld len"),
        Form::LdxImm => write!(text, "ldx #{k}"),
        Form::LdxMem => write!(text, "ldx M[{k}]"),
        Form::LdxLen => text.push_str("ldx len"),
        Form::LdxMsh => write!(text, "ldxb 4*([{k}]&0xf)"),
        Form::St => write!(text, "st M[{k}]"),
        Form::Stx => write!(text, "stx M[{k}]"),
        Form::Alu(op, src) => {
            write!(text, "{} ", op_mnemonic(op))?;
            write_source(text, src, k)
        }
        Form::Neg => text.push_str("neg"),
        Form::Ja => {
            text.push_str("jmp ")?;
            write_labels(text, jump_targets(form, insn, at))
        }
        Form::Test(cond, src) => {
            write!(text, "{} ", cond_mnemonic(cond))?;
            write_source(text, src, k)?;
            text.push(',')?;
            write_labels(text, jump_targets(form, insn, at))
        }
        Form::RetK => write!(text, "ret #{k}"),
        Form::RetA => text.push_str("ret a"),
        Form::Tax => text.push_str("tax"),
        Form::Txa => text.push_str("txa"),
    }
}

/// Writes the second operand of an operation or a test.
fn write_source(text: &mut String, src: Src, k: u32) -> Result<(), AllocError>
    ensures { OnOk result (string_bytes text.new ≡ string_bytes text.old ++ source_text src k) }
{
    match src {
        Src::K => write!(text, "#{k}"),
        Src::X => text.push('x'),
    }
}

/// Writes the labels of these indexes.
fn write_labels(text: &mut String, targets: Targets) -> Result<(), AllocError>
    ensures { OnOk result
        (string_bytes text.new ≡ string_bytes text.old ++ labels_text (targets_data targets)) }
{
    match targets {
        Targets::Nowhere => Ok(()),
        Targets::One(to) => write!(text, "L{to}"),
        Targets::Two(holds, fails) => write!(text, "L{holds},L{fails}"),
    }
}
