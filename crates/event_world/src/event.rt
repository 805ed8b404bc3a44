use page_sources::Source;
use sane_fixed::Text;

/// What may happen. A job is named by its place among the jobs. An event that cannot happen changes nothing.
#[derive(Drop)]
pub enum Event {
    /// The control connection of a job is made.
    Connect(usize),
    /// The first so many bytes, at most 4,096, of those that wait on the control connection come to the daemon.
    ToDaemon(usize, usize),
    /// The same of those that wait for the client.
    ToClient(usize, usize),
    /// The connection for the frame that waits for one is made.
    DataConnect(usize),
    /// The daemon's turn of that connection.
    DataTurn(usize),
    /// The first so many bytes, at most 4,096, of those that wait on it come to the client.
    DataToClient(usize, usize),
    /// The control connection is lost, and the data connection with it.
    LoseControl(usize),
    /// The data connection is lost.
    LoseImage(usize),
    /// The job is given up.
    Cancel(usize),
    /// A page is laid into the device of that name; where it is refused it is dropped.
    Load(Text, Source),
    /// The device of that name is taken out and listed no more.
    Unplug(Text),
}

/// What may happen to one job.
#[derive(Clone, Copy, Debug, PartialEq, Eq)]
pub enum JobEvent {
    Connect,
    ToDaemon(usize),
    ToClient(usize),
    DataConnect,
    DataTurn,
    DataToClient(usize),
    LoseControl,
    LoseImage,
    Cancel,
}

impl JobEvent {
    ghost use Rattle.std.specs.Prelude.{◌≡◌};
    ghost use Rattle.event_world.specs.JobEvents.{job_event_of};

    /// The event that it is for a job.
    pub fn of(self, i: usize) -> Event
        ensures { result ≡ job_event_of i self }
    {
        match self {
            JobEvent::Connect => Event::Connect(i),
            JobEvent::ToDaemon(n) => Event::ToDaemon(i, n),
            JobEvent::ToClient(n) => Event::ToClient(i, n),
            JobEvent::DataConnect => Event::DataConnect(i),
            JobEvent::DataTurn => Event::DataTurn(i),
            JobEvent::DataToClient(n) => Event::DataToClient(i, n),
            JobEvent::LoseControl => Event::LoseControl(i),
            JobEvent::LoseImage => Event::LoseImage(i),
            JobEvent::Cancel => Event::Cancel(i),
        }
    }
}
