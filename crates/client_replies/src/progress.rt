use crate::queue::Queue;
use option_desc::{Descriptor, Value};
use sane_fixed::{ByteOrder, DeviceInfo, Kind, Status, Text};
use scan_job::{ItemList, Report, Task, Why};

/// What a job is, its settings aside.
#[derive(Drop)]
pub struct JobTarget {
    pub user: Text,
    pub password: Text,
    pub device: Text,
    pub task: Task,
}

/// What a job that runs waits for.
///
/// **what a job waits for (`Progress`)**: the reply to a request, by procedure, with what that request needs; a frame's
/// records; a page of a batch that is to be taken; nothing.
#[derive(Drop)]
pub enum Progress {
    /// The reply to INIT, to GET_DEVICES, to OPEN.
    Greeting,
    Listing,
    Opening,
    /// The word of AUTHORIZE, to a resource with this answer.
    Allowing {
        resource: Text,
        answer: Text,
    },
    /// The reply to OPEN that follows it.
    Reopening,
    /// The descriptors.
    Describing,
    /// The reply to a setting's SET.
    Putting {
        option: u32,
        kind: Kind,
        name: Text,
        asked: Value,
    },
    /// The reply to the GET of an option of that size in bytes.
    Getting {
        option: u32,
        kind: Kind,
        size: u32,
    },
    /// The reply to START, of the first frame of a picture or of a further one.
    Starting {
        first: bool,
    },
    /// The frame's parameters, behind its START's reply.
    Shaping {
        port: u16,
        order: ByteOrder,
    },
    /// The data of a frame; whether its connection was made.
    Imaging {
        port: u16,
        opened: bool,
    },
    /// That the file of a whole picture is taken, before the next page of a batch.
    Turning,
    /// Nothing: the job is over.
    Over,
}

/// What a job has come to know.
///
/// **what it came to know (`Notes`)**: devices, descriptors and values, reports, the settings that are left, the device
/// word, the number of the file.
#[derive(Drop)]
pub struct Notes {
    /// The device word of OPEN's reply.
    pub word: u32,
    /// The settings that are still to be put.
    pub left: Queue<(Text, Text)>,
    /// What became of the others.
    pub reports: ItemList<Report>,
    /// The options, and the values that were asked for.
    pub known: ItemList<(Descriptor, Option<Value>)>,
    /// The number of the file under way.
    pub file: u32,
}

/// What a job comes to.
#[derive(Drop)]
pub enum Next {
    /// It goes on, and waits for this.
    Wait(Progress),
    /// It is done, and found these devices.
    Finish(ItemList<DeviceInfo>),
    /// It ends so.
    Stop(Status, Why),
}

/// The connections of a job.
#[derive(Clone, Copy, Debug, PartialEq, Eq)]
pub enum Link {
    /// That of requests and replies.
    Control,
    /// That of the data of a frame.
    Image,
}
