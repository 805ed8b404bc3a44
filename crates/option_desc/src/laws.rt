ghost use Rattle.std.specs.Prelude.{◌≡◌, ℕ, List, Some, None};
ghost use Rattle.option_desc.specs.declared.descriptor.Constraint.{Constraint};
ghost use Rattle.option_desc.specs.declared.descriptor.Descriptor.{Descriptor};
ghost use Rattle.option_desc.specs.declared.value.Value.{Value};
ghost use Rattle.option_desc.specs.WellFormed.{IsWellFormed};
ghost use Rattle.option_desc.specs.Representable.{IsRepresentable};
ghost use Rattle.option_desc.specs.Fits.{Fits};
ghost use Rattle.option_desc.specs.Reads.{ReadsAsValue, read_value};
ghost use Rattle.option_desc.specs.ShownText.{shown_text};
ghost use Rattle.option_desc.specs.Put.{NearestValue, Puts, resolve};

/// A law: there is at most one nearest value.
pub fn at_most_one_is_put()
    /// At most one value is put; what is computed of putting and reading is what the relations say.
    /// Carried by: `at_most_one_is_put`, `what_is_computed_is_put`, `what_is_computed_is_read`,
    /// `what_is_shown_is_read`
    ensures { (constraint : Constraint) (asked a b : Value)
        → NearestValue constraint asked a → NearestValue constraint asked b → a ≡ b }
{}

/// A law: what the definitions compute is what is put, and nothing where nothing can be put.
pub fn what_is_computed_is_put()
    ensures found { (desc : Descriptor) (asked given : Value) → IsWellFormed desc.constraint
        → resolve desc asked ≡ Some given → Puts desc asked given }
    ensures none { (desc : Descriptor) (asked : Value) → IsWellFormed desc.constraint
        → resolve desc asked ≡ None → (given : Value) → Puts desc asked given → ⊥ }
{}

/// A law: what the definitions compute is what a text reads as, and nothing where it reads as nothing.
pub fn what_is_computed_is_read()
    ensures found { (desc : Descriptor) (text : List ℕ) (value : Value)
        → read_value desc text ≡ Some value → ReadsAsValue desc text value }
    ensures none { (desc : Descriptor) (text : List ℕ)
        → read_value desc text ≡ None → (value : Value) → ReadsAsValue desc text value → ⊥ }
    ensures at_most_one { (desc : Descriptor) (text : List ℕ) (a b : Value)
        → ReadsAsValue desc text a → ReadsAsValue desc text b → a ≡ b }
{}

/// A law: what is shown of a value that fits reads as that value.
pub fn what_is_shown_is_read()
    ensures { (desc : Descriptor) (value : Value) → Fits desc value
        → IsRepresentable value → ReadsAsValue desc (shown_text desc value) value }
{}
