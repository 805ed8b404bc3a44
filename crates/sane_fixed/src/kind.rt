/// What an option's value is (SANE Standard 1.06, "Value Type").
#[derive(Clone, Copy, Debug, PartialEq, Eq)]
pub enum Kind {
    Bool = 0,
    Int = 1,
    Fixed = 2,
    String = 3,
    /// An action; it has no value.
    Button = 4,
    /// The title of the options that follow; it has no value.
    Group = 5,
}

impl Kind {
    ghost use Rattle.std.specs.Prelude.{◌≡◌, ◌≢◌, IfSome, IfNone};
    ghost use Rattle.sane_fixed.specs.declared.kind.Kind.{Kind as AnyKind};
    ghost use Rattle.sane_fixed.specs.Kind.{kind_code};

    /// The standard's number, 0 to 5.
    pub fn code(self) -> u32
        ensures { result ≡ kind_code self }
    {
        self as u32
    }

    /// The kind of that number, if there is one.
    pub fn from_code(code: u32) -> Option<Kind>
        ensures found { IfSome result (λ kind. kind_code kind ≡ code) }
        ensures none { IfNone result ((kind : AnyKind) → kind_code kind ≢ code) }
    {
        match code {
            0 => Some(Kind::Bool),
            1 => Some(Kind::Int),
            2 => Some(Kind::Fixed),
            3 => Some(Kind::String),
            4 => Some(Kind::Button),
            5 => Some(Kind::Group),
            _ => None,
        }
    }
}
