/// What a SANE call answers (SANE Standard 1.06, "Status Type").
#[derive(Clone, Copy, Debug, PartialEq, Eq)]
pub enum Status {
    Good = 0,
    Unsupported = 1,
    Cancelled = 2,
    DeviceBusy = 3,
    Inval = 4,
    Eof = 5,
    Jammed = 6,
    NoDocs = 7,
    CoverOpen = 8,
    IoError = 9,
    NoMem = 10,
    AccessDenied = 11,
}

impl Status {
    ghost use Rattle.std.specs.Prelude.{◌≡◌, ◌≢◌, IfSome, IfNone};
    ghost use Rattle.sane_fixed.specs.declared.status.Status.{Status as AnyStatus};
    ghost use Rattle.sane_fixed.specs.Status.{status_code, status_name, status_of};

    /// The standard's number, 0 to 11.
    pub fn code(self) -> u32
        ensures { result ≡ status_code self }
    {
        self as u32
    }

    /// The status of that number, if there is one.
    pub fn from_code(code: u32) -> Option<Status>
        /// Statuses, kinds, units and frame formats have SANE's numbers, both ways; statuses have SANE's names.
        /// Carried by: `Status::from_code`, `Status::name`, `Kind::from_code`, `Unit::from_code`,
        /// `FrameFormat::from_code`
        ensures is { result ≡ status_of code }
        // So it is the one that has that number, and none where none has it.
        ensures found { IfSome result (λ status. status_code status ≡ code) }
        ensures none { IfNone result ((status : AnyStatus) → status_code status ≢ code) }
    {
        match code {
            0 => Some(Status::Good),
            1 => Some(Status::Unsupported),
            2 => Some(Status::Cancelled),
            3 => Some(Status::DeviceBusy),
            4 => Some(Status::Inval),
            5 => Some(Status::Eof),
            6 => Some(Status::Jammed),
            7 => Some(Status::NoDocs),
            8 => Some(Status::CoverOpen),
            9 => Some(Status::IoError),
            10 => Some(Status::NoMem),
            11 => Some(Status::AccessDenied),
            _ => None,
        }
    }

    /// `SANE_STATUS_` and the standard's name.
    pub fn name(self) -> &'static str
        ensures { result.now ≡ status_name self }
    {
        match self {
            Status::Good => "SANE_STATUS_GOOD",
            Status::Unsupported => "SANE_STATUS_UNSUPPORTED",
            Status::Cancelled => "SANE_STATUS_CANCELLED",
            Status::DeviceBusy => "SANE_STATUS_DEVICE_BUSY",
            Status::Inval => "SANE_STATUS_INVAL",
            Status::Eof => "SANE_STATUS_EOF",
            Status::Jammed => "SANE_STATUS_JAMMED",
            Status::NoDocs => "SANE_STATUS_NO_DOCS",
            Status::CoverOpen => "SANE_STATUS_COVER_OPEN",
            Status::IoError => "SANE_STATUS_IO_ERROR",
            Status::NoMem => "SANE_STATUS_NO_MEM",
            Status::AccessDenied => "SANE_STATUS_ACCESS_DENIED",
        }
    }
}
