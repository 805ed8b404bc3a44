ghost use Rattle.std.specs.Prelude.{◌≡◌, [], Some, IfOk, option_map};
ghost use Rattle.std.specs.Result.{is_ok, result_ok};
ghost use Rattle.config_pages.specs.InputTexts.{AsksPage, ReadsText, TellsPageFile, page_asked, recorded_seen, text_read};
ghost use Rattle.config_pages.specs.RecordedCalls.{inputs_recorded};
ghost use Rattle.config_pages.specs.InputTexts.InputName.{StandardText, FileText};

use crate::input_notes::{InputNotes, PageNote, TextNote};
use crate::inputs::Inputs;
use std::alloc::Global;
use std::io;

/// Inputs, and the calls on them since they were put here.
#[derive(Drop)]
pub struct RecordedInputs<I> {
    inputs: I,
    notes: InputNotes,
}

impl<I> RecordedInputs<I> {
    /// Inputs of which nothing is recorded yet.
    pub fn new(inputs: I) -> RecordedInputs<I>
        /// Of inputs, when their record begins, no call is told.
        /// Carried by: `inputs`, `calls` of `RecordedInputs::new`
        ensures inputs { result.inputs ≡ inputs }
        ensures calls { result.notes.calls ≡ [] }
    {
        RecordedInputs {
            inputs,
            notes: InputNotes::none(),
        }
    }
}

/// The bytes that a reading gave.
fn bytes_of(read: &io::Result<Vec<u8>>) -> Option<&[u8]>
    ensures { option_map (λ bytes. bytes.now) result
        ≡ option_map (λ text. text.items) (result_ok read.now) }
{
    match read {
        Ok(text) => Some(text.as_slice()),
        Err(_) => None,
    }
}

impl<I: Inputs> Inputs for RecordedInputs<I> {
    type Page = I::Page;

    ghost seen = { λ r. recorded_seen r.notes.calls (I.seen r.inputs) };

    fn standard(&mut self, alloc: Global, most: u64) -> io::Result<Vec<u8>>
        /// What recorded inputs tell is the calls that were made on the inputs, in their order, each with what it gave.
        /// Carried by: `read`, `inner` of `standard` and of `file`, `asked`, `told`, `inner` of `page` of `RecordedInputs`
        ensures read { ReadsText (text_read StandardText most
            (option_map (λ text. text.items) (result_ok result)))
            (inputs_recorded I.seen self.old) (inputs_recorded I.seen self.new) }
        ensures inner { ReadsText (text_read StandardText most
            (option_map (λ text. text.items) (result_ok result)))
            (I.seen self.old.inputs) (I.seen self.new.inputs) }
    {
        let read = self.inputs.standard(alloc, most);
        self.notes.note_text(&TextNote {
            path: None,
            most,
            gave: bytes_of(&read),
        });
        read
    }

    fn file(&mut self, alloc: Global, path: &[u8], most: u64) -> io::Result<Vec<u8>>
        ensures read { ReadsText (text_read (FileText path.now) most
            (option_map (λ text. text.items) (result_ok result)))
            (inputs_recorded I.seen self.old) (inputs_recorded I.seen self.new) }
        ensures inner { ReadsText (text_read (FileText path.now) most
            (option_map (λ text. text.items) (result_ok result)))
            (I.seen self.old.inputs) (I.seen self.new.inputs) }
    {
        let read = self.inputs.file(alloc, path, most);
        self.notes.note_text(&TextNote {
            path: Some(path),
            most,
            gave: bytes_of(&read),
        });
        read
    }

    fn page(&mut self, path: &[u8]) -> io::Result<I::Page>
        ensures asked { AsksPage (page_asked path.now (is_ok result))
            (inputs_recorded I.seen self.old) (inputs_recorded I.seen self.new) }
        ensures told { IfOk result (λ page. TellsPageFile
            ((I.seen self.old.inputs).texts.file path.now)
            (I.Page.is_kept page) (I.Page.text page)) }
        ensures inner { AsksPage (page_asked path.now (is_ok result))
            (I.seen self.old.inputs) (I.seen self.new.inputs) }
    {
        let page = self.inputs.page(path);
        self.notes.note_page(&PageNote {
            path,
            is_open: page.is_ok(),
        });
        page
    }
}
