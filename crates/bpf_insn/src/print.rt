//! Prints a program as a numeric listing.
ghost use Rattle.std.specs.Prelude.{ℕ, ◌≡◌, ◌≤◌, ◌++◌, List, [], ◌∷◌, All, length, string_bytes, IfOk, OnOk, Ok};
ghost use Rattle.bpf_insn.specs.declared.insn.Insn.{Insn};
ghost use Rattle.bpf_insn.specs.Bytes.{InRange};
ghost use Rattle.bpf_insn.specs.Listing.{listing};
ghost use Rattle.bpf_insn.specs.Printed.{insn_numbers, listing_text};

use crate::insn::Insn;
use std::alloc::{AllocError, Global};
use std::fmt::Write;

/// Prints a program of at most 65,535 instructions as a listing: the count of its instructions and
/// a comma, and of each instruction `code jt jf k` in decimal and a comma.
pub fn print_listing(alloc: Global, program: &[Insn]) -> Result<String, AllocError>
    requires { length program.now ≤ 65535 }
    ensures text { IfOk result (λ text. string_bytes text ≡ listing_text program.now) }
{
    let mut text = format!(in alloc; "{},", program.len())?;
    let mut rest = program;
    'insns: while let Some((insn, after)) = rest.split_first() {
        append(&mut text, *insn)?;
        rest = after;
    }
    Ok(text)
}

/// Adds an instruction and its comma.
fn append(text: &mut String, insn: Insn) -> Result<(), AllocError>
    ensures added { OnOk result
        (string_bytes text.new ≡ string_bytes text.old ++ (insn_numbers insn ++ 44 ∷ [])) }
{
    let Insn { code, jt, jf, k } = insn;
    write!(text, "{code} {jt} {jf} {k},")
}
