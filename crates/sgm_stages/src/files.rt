//! The files that are written: the texts under the names of their outputs.
ghost use Rattle.std.specs.Prelude.{◌≡◌, ◌<◌, ◌++◌, length, All, IsSome, IfOk, OnOk, option_map};
ghost use Rattle.sgm_words.specs.Files.{ending_of};
ghost use Rattle.std.specs.Prelude.{ℕ, List, Option};
ghost use Rattle.sgm_words.specs.Operands.{of_match, of_change, of_merge};
ghost use Rattle.sgm_stages.specs.Made.{texts_in, change_texts_in, merge_texts_in};
ghost use Rattle.sgm_stages.specs.Outputs.{IsNamed, file_of, files_with};
ghost use Rattle.sgm_stages.specs.Outputs.{files_of, change_files_of, merge_files_of};

use crate::Output;
use crate::change_pipeline::ChangeTexts;
use crate::made::MadeTexts;
use crate::merge_plan::MergeTexts;
use sgm_words::{ChangeWords, MergeWords, OperandWords};
use std::alloc::{AllocError, Global};
use std::marker::Model;

/// A file that is to be written.
#[derive(Drop)]
pub struct OutputText {
    output: Output,
    name: String,
    text: Vec<u8>,
}

impl Model for OutputText {
    ghost use Rattle.std.specs.Prelude.{string_bytes};
    ghost use Rattle.sgm_stages.specs.Outputs.{OutputFile};

    ghost Value = { OutputFile };

    ghost view = { λ f. record {
      output = f.output;
      name = string_bytes f.name;
      text = f.text.items;
    } };
}

impl OutputText {
    /// The file of an output's text, named after OUT.
    fn named(
        alloc: Global,
        out: &str,
        output: Output,
        text: Vec<u8>,
    ) -> Result<OutputText, AllocError>
        requires { IsSome (ending_of output) }
        ensures { IfOk result (λ file. file ≡ file_of out.now output text.items) }
    {
        let name = output.file_name(alloc, out)?;
        Ok(OutputText { output, name, text })
    }

    /// Which output it is.
    pub fn output(&self) -> Output
        ensures { result ≡ self.now.output }
    {
        self.output
    }

    /// The name of the file.
    pub fn name(&self) -> &str
        ensures { result.now ≡ self.now.name }
    {
        self.name.as_str()
    }

    /// What it is to hold.
    pub fn text(&self) -> &[u8]
        ensures { result.now ≡ self.now.text }
    {
        &self.text
    }
}

/// All that a match, a change or a merge is to write: at least one file, and the summary.
#[derive(Drop)]
pub struct Delivery {
    /// The files, in the order in which they are written.
    pub files: Vec<OutputText>,
    /// The bytes of the summary, which is written after the files.
    pub summary: Vec<u8>,
    ghost some: { 0 < length files.items },
}

// Adds the file of a text, where there is one.
fn add_file(
    alloc: Global,
    out: &str,
    output: Output,
    text: Option<Vec<u8>>,
    files: &mut Vec<OutputText>,
) -> Result<(), AllocError>
    requires { IsSome (ending_of output) }
    ensures { OnOk result (files.new.items
        ≡ files.old.items ++ files_with out.now output (option_map (λ t. t.items) text)) }
{
    if let Some(text) = text {
        files.push(OutputText::named(alloc, out, output, text)?)?;
    }
    Ok(())
}

/// Puts the texts of a match under the names of their outputs. All memory of a run is taken once
/// this is done.
pub fn name_texts(
    alloc: Global,
    operands: &OperandWords<'_>,
    texts: MadeTexts,
) -> Result<Delivery, AllocError>
    ensures files { IfOk result (λ delivery. delivery.files.items
        ≡ files_of operands.now.out (texts_in texts)) }
    ensures summary { IfOk result (λ delivery. delivery.summary.items ≡ (texts_in texts).summary) }
    ensures named { IfOk result
        (λ delivery. All (IsNamed (of_match operands.now)) delivery.files.items) }
{
    let MadeTexts {
        disparity,
        heights,
        report,
        summary,
    } = texts;
    let out = operands.out();
    let mut files = Vec::with_capacity(alloc, 3)?;
    add_file(alloc, out, Output::Disparity, Some(disparity), &mut files)?;
    add_file(alloc, out, Output::Heights, heights, &mut files)?;
    add_file(alloc, out, Output::Report, report, &mut files)?;
    Ok(Delivery { files, summary })
}

/// The same of the texts of a change.
pub fn name_change(
    alloc: Global,
    operands: &ChangeWords<'_>,
    texts: ChangeTexts,
) -> Result<Delivery, AllocError>
    ensures files { IfOk result (λ delivery. delivery.files.items
        ≡ change_files_of operands.now.out (change_texts_in texts)) }
    ensures summary { IfOk result (λ delivery. delivery.summary.items
        ≡ (change_texts_in texts).summary) }
    ensures named { IfOk result
        (λ delivery. All (IsNamed (of_change operands.now)) delivery.files.items) }
{
    let ChangeTexts {
        difference,
        volumes,
        summary,
    } = texts;
    let out = operands.out();
    let mut files = Vec::with_capacity(alloc, 2)?;
    add_file(alloc, out, Output::Difference, Some(difference), &mut files)?;
    add_file(alloc, out, Output::Volumes, Some(volumes), &mut files)?;
    Ok(Delivery { files, summary })
}

/// The same of the texts of a merge.
pub fn name_merge(
    alloc: Global,
    operands: &MergeWords<'_>,
    texts: MergeTexts,
) -> Result<Delivery, AllocError>
    ensures files { IfOk result (λ delivery. delivery.files.items
        ≡ merge_files_of operands.now.out (merge_texts_in texts)) }
    ensures summary { IfOk result (λ delivery. delivery.summary.items
        ≡ (merge_texts_in texts).summary) }
    ensures named { (listed : Option (List (List ℕ)))
        → IfOk result
        (λ delivery. All (IsNamed (of_merge operands.now listed)) delivery.files.items) }
{
    let MergeTexts {
        heights,
        report,
        summary,
    } = texts;
    let out = operands.out();
    let mut files = Vec::with_capacity(alloc, 2)?;
    add_file(alloc, out, Output::Heights, Some(heights), &mut files)?;
    add_file(alloc, out, Output::Report, report, &mut files)?;
    Ok(Delivery { files, summary })
}
