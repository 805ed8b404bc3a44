ghost use Rattle.std.specs.Prelude.{◌≡◌, ◌≤◌};
ghost use Rattle.sane_fixed.specs.Cap.{has_cap};

/// What may be done with an option: the sum of these bits, and of any others (SANE Standard 1.06,
/// "Option Capabilities").
#[derive(Clone, Copy, Debug, PartialEq, Eq)]
pub struct Cap(pub u32);

impl Cap {
    /// A program may set the option.
    pub const SOFT_SELECT: u32 = 1;
    /// A user may set the option by hand, at the device.
    pub const HARD_SELECT: u32 = 2;
    /// A program may read the option's value.
    pub const SOFT_DETECT: u32 = 4;
    /// The backend does what the device cannot.
    pub const EMULATED: u32 = 8;
    /// The backend may choose the value by itself.
    pub const AUTOMATIC: u32 = 16;
    /// The option has no meaning at present.
    pub const INACTIVE: u32 = 32;
    /// The option is for advanced users.
    pub const ADVANCED: u32 = 64;
}

const _: () = prove!(Cap::SOFT_SELECT == 1);

const _: () = prove!(Cap::HARD_SELECT == 2);

const _: () = prove!(Cap::SOFT_DETECT == 4);

const _: () = prove!(Cap::EMULATED == 8);

const _: () = prove!(Cap::AUTOMATIC == 16);

const _: () = prove!(Cap::INACTIVE == 32);

const _: () = prove!(Cap::ADVANCED == 64);

/// Whether the bit, one of `Cap`'s, is among the capabilities.
pub fn has_cap(caps: u32, bit: u32) -> bool
    requires { 1 ≤ bit }
    ensures { result ≡ has_cap caps bit }
{
    caps / bit % 2 == 1
}
