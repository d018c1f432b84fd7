//! The first pass: what lines say, read one by one.

ghost use Rattle.std.specs.Prelude.{◌≡◌, ◌≢◌, ◌≤◌, [], vec_len, IfErr};
ghost use Rattle.bpf_insn.specs.declared.insn.TheConstants.{MAX_INSNS as most};
ghost use Rattle.bpf_asm.specs.FirstFault.{HasContent};
ghost use Rattle.bpf_asm.specs.Views.{line_in, labels_in, template_data};
ghost use Rattle.bpf_asm.specs.Drafts.{IsDraftOf, AddsLine, AddsLabels, AddsLabel, AddsInsn};

use crate::fault::AsmFault;
use crate::labels::LabelTable;
use crate::line::{Labels, next_label, read_line};
use crate::template::Template;
use crate::text::Text;
use bpf_insn::MAX_INSNS;
use std::alloc::Global;

/// An instruction with its labels left open, and its line.
#[derive(Clone, Copy)]
pub(crate) struct Unlinked<'a> {
    pub(crate) template: Template<'a>,
    pub(crate) line: usize,
}

/// What the lines so far say.
#[derive(Drop)]
pub(crate) struct Draft<'a> {
    pub(crate) insns: Vec<Unlinked<'a>>,
    pub(crate) labels: LabelTable<'a>,
    /// The line of the last label, where no instruction follows it.
    pub(crate) unfollowed: Option<usize>,
}

impl<'a> Draft<'a> {
    /// The draft of no lines.
    pub(crate) fn new(alloc: Global) -> Draft<'a>
        ensures { IsDraftOf [] result }
    {
        Draft {
            insns: Vec::new(alloc),
            labels: LabelTable::new(alloc),
            unfollowed: None,
        }
    }

    /// Adds the first line of a text, which has this number.
    pub(crate) fn add_line(&mut self, text: Text<'a>, line: usize) -> Result<(), AsmFault>
        requires { vec_len self.old.insns ≤ most }
        ensures added { AddsLine self.old (line_in text.entry) line result self.new }
        ensures memory { IfErr result (λ fault.
            fault ≡ AsmFault.Memory → HasContent (line_in text.entry)) }
    {
        let reading = match read_line(text) {
            Ok(reading) => reading,
            Err(fault) => return Err(fault.in_line(line)),
        };
        self.add_labels(reading.labels, line)?;
        let insn = match reading.insn {
            Ok(insn) => insn,
            Err(fault) => return Err(fault.in_line(line)),
        };
        match insn {
            None => Ok(()),
            Some(template) => self.add_insn(template, line),
        }
    }

    /// Adds the labels of a line.
    fn add_labels(&mut self, labels: Labels<'a>, line: usize) -> Result<(), AsmFault>
        requires { vec_len self.old.insns ≤ most }
        ensures added { AddsLabels self.old (labels_in labels.entry) line result self.new }
        ensures memory { IfErr result (λ fault.
            fault ≡ AsmFault.Memory → labels_in labels.entry ≢ []) }
    {
        let mut rest = labels;
        'labels: while let Some((name, after)) = next_label(rest) {
            self.add_label(name, line)?;
            rest = after;
        }
        Ok(())
    }

    /// Adds a label of a line, after others of the line.
    fn add_label(&mut self, name: &'a [u8], line: usize) -> Result<(), AsmFault>
        requires { vec_len self.old.insns ≤ most }
        ensures added { AddsLabel self.old name.now line result self.new }
        ensures insns { vec_len self.new.insns ≡ vec_len self.old.insns }
    {
        let earlier = self.labels.define(name, self.insns.len() as u32)?;
        if earlier.is_some() {
            return Err(AsmFault::LabelTwice { line });
        }
        self.unfollowed = Some(line);
        Ok(())
    }

    /// Adds the instruction of a line, after its labels.
    fn add_insn(&mut self, template: Template<'a>, line: usize) -> Result<(), AsmFault>
        ensures added { AddsInsn self.old (template_data template.entry) line result self.new }
    {
        if self.insns.len() == MAX_INSNS {
            return Err(AsmFault::TooLong);
        }
        self.insns.push(Unlinked { template, line })?;
        self.unfollowed = None;
        Ok(())
    }
}
