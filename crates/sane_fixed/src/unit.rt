/// What an option's numbers count (SANE Standard 1.06, "Unit").
#[derive(Clone, Copy, Debug, PartialEq, Eq)]
pub enum Unit {
    None = 0,
    Pixel = 1,
    Bit = 2,
    Mm = 3,
    Dpi = 4,
    Percent = 5,
    Microsecond = 6,
}

impl Unit {
    ghost use Rattle.std.specs.Prelude.{◌≡◌, ◌≢◌, IfSome, IfNone};
    ghost use Rattle.sane_fixed.specs.declared.unit.Unit.{Unit as AnyUnit};
    ghost use Rattle.sane_fixed.specs.Unit.{unit_code};

    /// The standard's number, 0 to 6.
    pub fn code(self) -> u32
        ensures { result ≡ unit_code self }
    {
        self as u32
    }

    /// The unit of that number, if there is one.
    pub fn from_code(code: u32) -> Option<Unit>
        ensures found { IfSome result (λ measure. unit_code measure ≡ code) }
        ensures none { IfNone result ((measure : AnyUnit) → unit_code measure ≢ code) }
    {
        match code {
            0 => Some(Unit::None),
            1 => Some(Unit::Pixel),
            2 => Some(Unit::Bit),
            3 => Some(Unit::Mm),
            4 => Some(Unit::Dpi),
            5 => Some(Unit::Percent),
            6 => Some(Unit::Microsecond),
            _ => None,
        }
    }
}
