/// What became of a value that was set: the sum of these bits (SANE Standard 1.06, "Option Control").
#[derive(Clone, Copy, Debug, PartialEq, Eq)]
pub struct Info(pub u32);

impl Info {
    /// The value in force differs from the one given.
    pub const INEXACT: u32 = 1;
    /// The descriptors changed.
    pub const RELOAD_OPTIONS: u32 = 2;
    /// The parameters of the scan may have changed.
    pub const RELOAD_PARAMS: u32 = 4;
}

const _: () = prove!(Info::INEXACT == 1);

const _: () = prove!(Info::RELOAD_OPTIONS == 2);

const _: () = prove!(Info::RELOAD_PARAMS == 4);
