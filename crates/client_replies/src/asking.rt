ghost use Rattle.std.specs.Prelude.{◌≡◌, IfOk};
ghost use Rattle.client_replies.specs.Asking.{request_for};

use crate::given_values::blank_value;
use crate::progress::{JobTarget, Progress};
use sane_fixed::NoMem;
use std::alloc::Global;
use wire_message::{ControlAction, Request, wire_of};

/// The version that a client tells: 1.0, build 3.
const VERSION: u32 = 0x01000003;

/// What a job asks for as it begins to wait.
pub fn request_for(
    alloc: Global,
    target: &JobTarget,
    word: u32,
    progress: &Progress,
) -> Result<Option<Request>, NoMem>
    /// What is asked for.
    ensures { IfOk result (λ request. request ≡ request_for target.now word progress.now) }
{
    Ok(match progress {
        Progress::Greeting => Some(Request::Init {
            version: VERSION,
            user: target.user.try_clone(alloc)?,
        }),
        Progress::Listing => Some(Request::GetDevices),
        Progress::Opening => Some(Request::Open {
            name: target.device.try_clone(alloc)?,
        }),
        Progress::Allowing { resource, answer } => Some(Request::Authorize {
            resource: resource.try_clone(alloc)?,
            user: target.user.try_clone(alloc)?,
            password: answer.try_clone(alloc)?,
        }),
        Progress::Describing => Some(Request::GetOptionDescriptors { device: word }),
        Progress::Putting {
            option,
            kind,
            asked,
            ..
        } => Some(Request::ControlOption {
            device: word,
            option: *option,
            action: ControlAction::SetValue,
            kind: *kind,
            value: wire_of(alloc, asked)?,
        }),
        Progress::Getting { option, kind, size } => Some(Request::ControlOption {
            device: word,
            option: *option,
            action: ControlAction::GetValue,
            kind: *kind,
            value: blank_value(alloc, *kind, *size)?,
        }),
        Progress::Starting { .. } => Some(Request::Start { device: word }),
        Progress::Shaping { .. } => Some(Request::GetParameters { device: word }),
        Progress::Reopening | Progress::Imaging { .. } | Progress::Turning | Progress::Over => None,
    })
}
