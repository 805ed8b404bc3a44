use crate::limited_reading::text_of;
use page_sources::Rereadable;
use std::alloc::Global;
use std::fs::File;
use std::io::{self, ErrorKind};

/// What a program reads: its standard input, and files by their paths, relative to the current folder.
pub trait Inputs {
    ghost use Rattle.std.specs.Prelude.{IfOk, option_map};
    ghost use Rattle.std.specs.Result.{is_ok, result_ok};
    ghost use Rattle.config_pages.specs.InputTexts.{AsksPage, ReadsText, SeenInputs, TellsPageFile, page_asked, text_read, unseen_inputs};
    ghost use Rattle.config_pages.specs.InputTexts.InputName.{StandardText, FileText};

    type Page: Rereadable + Drop;

    // Which texts are there, and the calls so far, as far as they are told.
    ghost seen: { Self → SeenInputs } = { λ _. unseen_inputs };

    /// The first bytes of the text on standard input, so many at most.
    fn standard(&mut self, alloc: Global, most: u64) -> io::Result<Vec<u8>>
        /// Inputs tell what is read of standard input, or of the file of a path. If they tell the text that is there, it is the
        /// first bytes of that one.
        /// Carried by: `standard`, `file` of `Inputs`: `ReadsText`
        ensures { ReadsText (text_read StandardText most
            (option_map (λ text. text.items) (result_ok result)))
            (seen self.old) (seen self.new) };

    /// The first bytes of the text in the file of that path, so many at most.
    fn file(&mut self, alloc: Global, path: &[u8], most: u64) -> io::Result<Vec<u8>>
        ensures { ReadsText (text_read (FileText path.now) most
            (option_map (λ text. text.items) (result_ok result)))
            (seen self.old) (seen self.new) };

    /// The page file of that path.
    fn page(&mut self, path: &[u8]) -> io::Result<Self::Page>
        /// Which page file is asked for is told, and whether it was opened; and its reader keeps the text that is there, where the
        /// inputs tell that.
        /// Carried by: `asked`, `told` of `page` of `Inputs`
        ensures asked { AsksPage (page_asked path.now (is_ok result))
            (seen self.old) (seen self.new) }
        ensures told { IfOk result (λ page. TellsPageFile ((seen self.old).texts.file path.now)
            (Self.Page.is_kept page) (Self.Page.text page)) };
}

/// Those of the process, which tell nothing.
#[derive(Drop)]
pub struct HostInputs<'a> {
    pub rt: &'a HostRuntime,
}

/// The file of that path.
fn opened(rt: &HostRuntime, path: &[u8]) -> io::Result<File> {
    match std::str::from_utf8(path) {
        Ok(path) => File::open(rt, path),
        Err(_) => Err(io::Error::from(ErrorKind::InvalidInput)),
    }
}

impl Inputs for HostInputs<'_> {
    type Page = File;

    fn standard(&mut self, alloc: Global, most: u64) -> io::Result<Vec<u8>> {
        text_of(alloc, self.rt.stdin(), most)
    }

    fn file(&mut self, alloc: Global, path: &[u8], most: u64) -> io::Result<Vec<u8>> {
        text_of(alloc, opened(self.rt, path)?, most)
    }

    fn page(&mut self, path: &[u8]) -> io::Result<File> {
        opened(self.rt, path)
    }
}
