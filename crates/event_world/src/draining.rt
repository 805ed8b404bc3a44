//! What a client gives of its files is laid down.

ghost use Rattle.std.specs.Prelude.{◌≡◌, ◌<◌, List, true, length};
ghost use Rattle.frame_join.specs.FrameHistory.{JoinHistory};
ghost use Rattle.client_replies.specs.ProtocolStates.{scans, turns};
ghost use Rattle.event_world.specs.Endpoints.{IsKept, laid_by};
ghost use Rattle.event_world.specs.FileDraining.{Drains, HasPlace, HoldsHistory, IsLaid, Pulls, StaysOutOfMemory};

use crate::endpoint::Endpoint;
use crate::file::File;
use crate::job_events::PIECE;
use frame_join::{no_file_is_endless, whole_shows};
use net_backend::Task;
use std::alloc::Global;
use std::mem;

/// More pulls than a file has bytes.
const MOST_PULLS: u64 = 1 << 40;

/// What came of a pull.
pub enum Pull {
    More,
    Dry,
    /// A page was finished, and the client turned to the next.
    NextPage,
}

impl Endpoint {
    /// Whether the job scans to files.
    fn has_files(&self) -> bool
        ensures { result ≡ scans self.now.task }
    {
        match self.task {
            Task::Scan | Task::Batch(_) => true,
            Task::List | Task::Show | Task::SetOnly => false,
        }
    }

    /// Bytes of the file come. Where there is no memory for them the file is none any more.
    fn keep(&mut self, bytes: &[u8]) -> bool
        ensures { IsKept result bytes.now self.old self.new }
    {
        let Some(file) = &mut self.file else {
            return true;
        };
        if file.push(bytes).is_ok() {
            return true;
        }
        self.file = None;
        self.out_of_memory = true;
        false
    }

    /// A page is finished, and its file laid by.
    pub fn lay_by(&mut self, alloc: Global)
        ensures { self.new ≡ laid_by self.old }
    {
        let file = mem::replace(&mut self.file, Some(File::new(alloc)));
        if self.finished < 16 {
            self.pages[self.finished] = file;
            self.finished += 1;
        }
    }

    /// The next bytes of the file.
    fn pull(&mut self, alloc: Global) -> Pull
        ensures pulls { (past : JoinHistory) (pages : List JoinHistory)
            → scans self.old.task ≡ true → HasPlace self.old pages
            → HoldsHistory past pages self.old → Pulls past pages self.old result self.new }
        ensures rest { IsLaid self.old self.new }
        ensures starved { StaysOutOfMemory self.old self.new }
    {
        if self.client.is_turning() {
            return self.pull_page(alloc);
        }
        let mut room = [0u8; PIECE];
        let count = self.client.take_file(&mut room);
        let _ = self.keep(&room[..count]);
        if count == 0 { Pull::Dry } else { Pull::More }
    }

    /// The next bytes of the file of a page that is whole.
    fn pull_page(&mut self, alloc: Global) -> Pull
        requires { turns self.old.client.outcome self.old.client.progress ≡ true }
        ensures pulls { (past : JoinHistory) (pages : List JoinHistory)
            → scans self.old.task ≡ true → length pages < 16
            → HoldsHistory past pages self.old → Pulls past pages self.old result self.new }
        ensures rest { IsLaid self.old self.new }
        ensures starved { StaysOutOfMemory self.old self.new }
    {
        whole_shows();
        let mut room = [0u8; PIECE];
        let count = self.client.take_file(&mut room);
        let _ = self.keep(&room[..count]);
        if !self.client.is_turning() {
            self.lay_by(alloc);
            return Pull::NextPage;
        }
        if count == 0 { Pull::Dry } else { Pull::More }
    }

    /// All bytes of the file that may go out are laid down, and a page that is finished is laid by.
    pub fn drain(&mut self, alloc: Global)
        ensures { Drains self.old self.new }
    {
        if !self.has_files() {
            return;
        }
        no_file_is_endless();
        for _i in 0..MOST_PULLS {
            match self.pull(alloc) {
                Pull::More => {}
                Pull::Dry => return,
                Pull::NextPage => return,
            }
        }
    }
}
