//! The table of operands: which a mnemonic takes, and the instruction that they make.

ghost use Rattle.std.specs.Prelude.{◌≡◌, Some};
ghost use Rattle.std.specs.Option.{option_map, option_copied};
ghost use Rattle.bpf_asm.specs.Templates.{template_of, with_operand, meaning_of, test_template};
ghost use Rattle.bpf_asm.specs.declared.mnemonic.Mnemonic.TheVariants.{Jmp};
ghost use Rattle.bpf_asm.specs.Views.{template_data, operand_data};

use crate::mnemonic::Mnemonic;
use crate::operand::Operand;
use bpf_insn::{Cond, Form, Size, Src};

/// Where an instruction goes by labels. A label that is left out is the next instruction.
#[derive(Clone, Copy, PartialEq, Eq)]
pub(crate) enum Jump<'a> {
    /// It is no jump.
    NoJump,
    /// To this label.
    Always(&'a [u8]),
    /// To the first label where a test holds, else to the second.
    Branch(Option<&'a [u8]>, Option<&'a [u8]>),
}

/// An instruction with its labels left open.
#[derive(Clone, Copy)]
pub(crate) struct Template<'a> {
    /// What it does.
    pub(crate) form: Form,
    /// The constant; 0 where the instruction has none or a label stands for it.
    pub(crate) k: u32,
    /// Where it goes.
    pub(crate) jump: Jump<'a>,
}

/// The instruction of a mnemonic with an operand; `None` where the mnemonic does not take it.
pub(crate) fn make_template(mnemonic: Mnemonic, operand: Operand<'_>) -> Option<Template<'_>>
    ensures { option_map template_data result ≡ template_of mnemonic (operand_data operand.entry) }
{
    match mnemonic {
        Mnemonic::Jmp => label_jump(operand),
        _ => with_meaning(mnemonic, meaning(operand)),
    }
}

/// A jump to a label.
fn label_jump(operand: Operand<'_>) -> Option<Template<'_>>
    ensures { option_map template_data result ≡ template_of Jmp (operand_data operand.entry) }
{
    match operand {
        Operand::Word(name) => Some(Template {
            form: Form::Ja,
            k: 0,
            jump: Jump::Always(name),
        }),
        _ => None,
    }
}

/// What a single name, or a name after `#`, is where it is no label.
fn meaning(operand: Operand<'_>) -> Operand<'_>
    ensures { operand_data result ≡ meaning_of (operand_data operand.entry) }
{
    match operand {
        Operand::Word(b"x") => Operand::IndexRegister,
        Operand::Word(b"a") => Operand::Accumulator,
        Operand::Word(b"len") | Operand::HashWord(b"len") => Operand::Length,
        _ => operand,
    }
}

/// The table of operands: which a mnemonic takes, and the instruction that they make.
fn with_meaning(mnemonic: Mnemonic, operand: Operand<'_>) -> Option<Template<'_>>
    ensures { option_map template_data result ≡ with_operand mnemonic (operand_data operand.entry) }
{
    let (form, k) = match (mnemonic, operand) {
        (Mnemonic::Ld, Operand::Absolute(k)) => (Form::LdAbs(Size::W), k),
        (Mnemonic::Ld, Operand::Indexed(k)) => (Form::LdInd(Size::W), k),
        (Mnemonic::Ld, Operand::Scratch(k)) => (Form::LdMem, k),
        (Mnemonic::Ld, Operand::Immediate(k)) => (Form::LdImm, k),
        (Mnemonic::Ld, Operand::Length) => (Form::LdLen, 0),
        (Mnemonic::Ldi, Operand::Immediate(k) | Operand::Bare(k)) => (Form::LdImm, k),
        (Mnemonic::Ldh, Operand::Absolute(k)) => (Form::LdAbs(Size::H), k),
        (Mnemonic::Ldh, Operand::Indexed(k)) => (Form::LdInd(Size::H), k),
        (Mnemonic::Ldb, Operand::Absolute(k)) => (Form::LdAbs(Size::B), k),
        (Mnemonic::Ldb, Operand::Indexed(k)) => (Form::LdInd(Size::B), k),
        (Mnemonic::Ldx, Operand::Scratch(k)) => (Form::LdxMem, k),
        (Mnemonic::Ldx, Operand::Immediate(k)) => (Form::LdxImm, k),
        (Mnemonic::Ldx, Operand::Length) => (Form::LdxLen, 0),
        (Mnemonic::Ldx | Mnemonic::Ldxb, Operand::HeaderLength(4, k, 15)) => (Form::LdxMsh, k),
        (Mnemonic::Ldxi, Operand::Immediate(k) | Operand::Bare(k)) => (Form::LdxImm, k),
        (Mnemonic::St, Operand::Scratch(k)) => (Form::St, k),
        (Mnemonic::Stx, Operand::Scratch(k)) => (Form::Stx, k),
        (Mnemonic::Alu(op), Operand::Immediate(k)) => (Form::Alu(op, Src::K), k),
        (Mnemonic::Alu(op), Operand::IndexRegister) => (Form::Alu(op, Src::X), 0),
        (Mnemonic::Neg, Operand::Nothing) => (Form::Neg, 0),
        (Mnemonic::Tax, Operand::Nothing) => (Form::Tax, 0),
        (Mnemonic::Txa, Operand::Nothing) => (Form::Txa, 0),
        (Mnemonic::Ret, Operand::Immediate(k)) => (Form::RetK, k),
        (Mnemonic::Ret, Operand::Accumulator) => (Form::RetA, 0),
        (Mnemonic::Test(cond), Operand::Targets(src, k, holds, fails)) => {
            return Some(test(cond, src, k, Some(holds), fails));
        }
        (Mnemonic::Inverted(cond), Operand::Targets(src, k, fails, None)) => {
            return Some(test(cond, src, k, None, Some(fails)));
        }
        _ => return None,
    };
    let jump = Jump::NoJump;
    Some(Template { form, k, jump })
}

/// A test with the labels where it holds and where it fails.
fn test<'a>(
    cond: Cond,
    src: Src,
    k: u32,
    holds: Option<&'a [u8]>,
    fails: Option<&'a [u8]>,
) -> Template<'a>
    ensures { Some (template_data result) ≡ test_template cond src k
        (option_copied holds.entry) (option_copied fails.entry) }
{
    let jump = Jump::Branch(holds, fails);
    let form = Form::Test(cond, src);
    Template { form, k, jump }
}
