//! The endpoint of a job: its client, its connections and its files.

ghost use Rattle.std.specs.Prelude.{◌≡◌, IfOk, IfErr, Some, true, option_map};
ghost use Rattle.scan_job.specs.JobSize.{HasJobFault};
ghost use Rattle.client_replies.specs.ProtocolStates.{is_running};
ghost use Rattle.event_world.specs.Endpoints.{IsNew, IsCancelled, budget_of, image_out_of_memory, with_image_link, with_link, finished_page, shut_out, after_move, without_image_link, without_link};

use crate::file::File;
use net_backend::{Client, Job, JobFault, Link, Outcome, Task};
use saned_core::{Replies, SessionId};
use std::alloc::Global;

/// The data connection of a frame.
#[derive(Drop)]
pub struct Image {
    /// What is on the way to the client.
    pub bytes: Replies,
    /// Whether the end record is among it.
    pub is_last: bool,
}

/// A job of a world.
#[derive(Drop)]
pub struct Endpoint {
    pub task: Task,
    pub client: Client,
    /// Whether its control connection was made.
    pub was_connected: bool,
    /// The session of the control connection, as long as that stands.
    pub link: Option<SessionId>,
    /// Whether the daemon has ended that session.
    pub is_over: bool,
    pub image: Option<Image>,
    /// The file under way; none once a growth of it was refused.
    pub file: Option<File>,
    /// The files of a batch's finished pages, and how many they are.
    pub pages: [Option<File>; 16],
    pub finished: usize,
    /// Whether a growth was refused on a connection, in the session or for a file.
    pub out_of_memory: bool,
    /// More moves than the job may still take.
    pub budget: u64,
}

/// More moves than a job of that task may take.
fn budget_of(task: Task) -> u64
    ensures { result ≡ budget_of task }
{
    match task {
        Task::Batch(_) => 1 << 36,
        Task::List | Task::Show | Task::SetOnly | Task::Scan => 1 << 34,
    }
}

impl Endpoint {
    /// The endpoint of a job to which nothing has happened.
    pub fn new(alloc: Global, job: Job) -> Result<Endpoint, JobFault>
        ensures new { IfOk result (λ p. IsNew job p) }
        ensures fault { IfErr result (λ f. HasJobFault job (Some f)) }
    {
        let task = job.task;
        let client = match Client::new(alloc, job) {
            Ok(client) => client,
            Err((fault, _)) => return Err(fault),
        };
        Ok(Endpoint {
            task,
            client,
            was_connected: false,
            link: None,
            is_over: false,
            image: None,
            file: Some(File::new(alloc)),
            pages: [
                None, None, None, None, None, None, None, None, None, None, None, None, None, None,
                None, None,
            ],
            finished: 0,
            out_of_memory: false,
            budget: budget_of(task),
        })
    }

    /// Whether the job runs.
    pub fn is_running(&self) -> bool
        ensures { result ≡ is_running self.now.client.outcome }
    {
        match self.client.outcome() {
            Outcome::Running => true,
            Outcome::Done(_) | Outcome::Ended(_, _) => false,
        }
    }

    /// A move of the job is made.
    pub fn spend(&mut self)
        ensures { self.new ≡ after_move self.old }
    {
        self.budget = self.budget.saturating_sub(1);
    }

    /// The control connection is made, to that session.
    pub fn link_to(&mut self, id: SessionId)
        ensures { self.new ≡ with_link id self.old }
    {
        self.was_connected = true;
        self.link = Some(id);
    }

    /// There is no session for the control connection, which is lost at once.
    pub fn shut_out(&mut self)
        ensures { self.new ≡ shut_out self.old }
    {
        self.was_connected = true;
        self.out_of_memory = true;
        self.lose_control();
    }

    /// The control connection is lost, and the data connection with it.
    pub fn lose_control(&mut self)
        ensures { self.new ≡ without_link self.old }
    {
        self.client.link_lost(Link::Control);
        self.link = None;
        self.image = None;
    }

    /// The data connection is lost.
    pub fn lose_image(&mut self)
        ensures { self.new ≡ without_image_link self.old }
    {
        self.client.link_lost(Link::Image);
        self.image = None;
    }

    /// The data connection is lost, since there is no memory for what is to go over it.
    pub fn image_out_of_memory(&mut self)
        ensures { self.new ≡ image_out_of_memory self.old }
    {
        self.out_of_memory = true;
        self.lose_image();
    }

    /// The data connection is made.
    pub fn dial(&mut self, alloc: Global)
        ensures { self.new ≡ with_image_link self.old }
    {
        self.client.data_opened();
        self.image = Some(Image {
            bytes: Replies::new(alloc),
            is_last: false,
        });
    }

    /// The job, which runs, is given up.
    pub fn cancel(&mut self)
        requires { is_running self.old.client.outcome ≡ true }
        ensures { IsCancelled self.old self.new }
    {
        self.client.cancel();
    }

    /// The file under way.
    pub fn file_now(&self) -> Option<&[u8]>
        ensures { option_map (λ f. f.now) result ≡ self.now.file }
    {
        match &self.file {
            Some(file) => Some(file.bytes()),
            None => None,
        }
    }

    /// The file of a finished page, from 1.
    pub fn page(&self, k: usize) -> Option<&[u8]>
        ensures { option_map (λ f. f.now) result ≡ finished_page self.now k }
    {
        if k == 0 || k > self.finished || k > 16 {
            return None;
        }
        match &self.pages[k - 1] {
            Some(file) => Some(file.bytes()),
            None => None,
        }
    }
}
