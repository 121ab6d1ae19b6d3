//! Reports of a check.
ghost use Rattle.std.specs.Prelude.{◌≡◌, ◌↔◌, [], ◌∷◌, ◌++◌, OnOk, IfOk, IsTrue, length};
ghost use Rattle.std.specs.List.{flat_map};
ghost use Rattle.ds_check.specs.Rows.{find_if};
ghost use Rattle.ds_check.specs.Texts.{report_text, find_line};

use crate::findings::Find;
use crate::texts::write_find;
use ds_base::NoMemory;
use ds_text::Text;
use std::alloc::Global;
use std::marker::Model;

/// What a check found, which contracts see as the list of findings.
#[derive(Drop)]
pub struct Report {
    findings: Vec<Find>,
}

impl Model for Report {
    ghost use Rattle.std.specs.Prelude.{List};
    ghost use Rattle.ds_check.specs.declared.findings.Find.{Find};

    ghost Value = { List Find };

    ghost view = { λ report. report.findings.items };
}

impl Report {
    /// A report without findings.
    pub(crate) fn new(alloc: Global) -> Report
        ensures { result ≡ [] }
    {
        Report {
            findings: Vec::new(alloc),
        }
    }

    pub(crate) fn note(&mut self, find: Find) -> Result<(), NoMemory>
        ensures { OnOk result (self.new ≡ self.old ++ find ∷ []) }
    {
        self.findings.push(find).map_err(|_| NoMemory)
    }

    /// Notes a finding where there is one.
    pub(crate) fn note_if(&mut self, found: bool, find: Find) -> Result<(), NoMemory>
        ensures { OnOk result (self.new ≡ self.old ++ find_if found find) }
    {
        if found { self.note(find) } else { Ok(()) }
    }

    /// The findings in the order of the report.
    pub fn findings(&self) -> &[Find]
        ensures { result.now ≡ self.now }
    {
        &self.findings
    }

    pub(crate) fn is_empty(&self) -> bool
        ensures { IsTrue result ↔ (length self.now ≡ 0) }
    {
        self.findings.is_empty()
    }

    /// The text of the report: a line for each finding, or the one line `clean`.
    pub fn text(&self) -> Result<Vec<u8>, NoMemory>
        ensures { IfOk result (λ text. text.items ≡ report_text self.now) }
    {
        let mut text = Text::new(*self.findings.allocator());
        if self.findings.is_empty() {
            text.bytes(b"clean\n")?;
        }
        write_lines(&mut text, &self.findings)?;
        Ok(text.into_bytes())
    }
}

fn write_lines(text: &mut Text, finds: &[Find]) -> Result<(), NoMemory>
    ensures { OnOk result (text.new ≡ text.old ++ flat_map find_line finds.now) }
{
    for find in finds {
        write_line(text, find)?;
    }
    Ok(())
}

fn write_line(text: &mut Text, find: &Find) -> Result<(), NoMemory>
    ensures { OnOk result (text.new ≡ text.old ++ find_line find.now) }
{
    write_find(text, find)?;
    text.bytes(b"\n")
}
