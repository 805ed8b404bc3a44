use crate::no_mem::NoMem;
use std::alloc::{AllocError, Global};
use std::marker::Model;
use thiserror::Error;

/// A text as SANE means it: bytes without NUL (SANE Standard 1.06, "Text"). Contracts see the list of
/// its bytes.
#[derive(Debug, Drop)]
pub struct Text {
    bytes: Vec<u8>,
}

/// Why bytes make no text.
#[derive(Clone, Copy, Debug, PartialEq, Eq, Error)]
pub enum TextFault {
    /// A byte is NUL.
    #[error("a byte of the text is NUL")]
    Nul = 1,
    /// No memory for a copy of the bytes.
    #[error("out of memory")]
    NoMem = 2,
}

const _: () = prove!(TextFault::Nul as u32 == 1);

const _: () = prove!(TextFault::NoMem as u32 == 2);

impl From<AllocError> for TextFault {
    ghost use Rattle.std.specs.Prelude.{◌≡◌};
    ghost use Rattle.sane_fixed.specs.declared.text.TextFault.TheVariants.{NoMem};

    ghost from_gives = { λ _ fault. fault ≡ NoMem };

    fn from(_: AllocError) -> Self {
        TextFault::NoMem
    }
}

impl Model for Text {
    ghost use Rattle.std.specs.Prelude.{List, ℕ};
    ghost use Rattle.sane_fixed.specs.Text.{IsText};

    ghost Value = { List ℕ };

    ghost view = { λ t. t.bytes.items };

    ghost invariant = { λ t. IsText t.bytes.items };
}

impl PartialEq for Text {
    ghost use Rattle.std.specs.Str.{bytes_eq};
    ghost use Rattle.std.proofs.Common.{rules};
    ghost use Rattle.std.specs.Cmp.Rules.{comparing};

    ghost eq = { bytes_eq };

    ghost laws = { Prim.search (comparing, rules) };

    fn eq(&self, other: &Text) -> bool {
        self.bytes == other.bytes
    }
}

impl Eq for Text {
    ghost use Rattle.std.proofs.Common.{rules};
    ghost use Rattle.std.specs.Cmp.Rules.{comparing};

    ghost laws = { Prim.search (comparing, rules) };
}

impl Text {
    ghost use Rattle.std.specs.Prelude.{◌≡◌, IfOk, IfErr, IsErr, ◌↔◌};
    ghost use Rattle.sane_fixed.specs.Text.{IsText};

    /// The text of these bytes: `Nul` where one of them is NUL, `NoMem` where there is no memory for a copy.
    pub fn new(alloc: Global, bytes: &[u8]) -> Result<Self, TextFault>
        /// `Text::new` keeps the bytes, and refuses exactly those with NUL; `Text::from_vec` does so without taking
        /// memory, and gives refused bytes back.
        ensures ok { IfOk result (λ text. text ≡ bytes.now) }
        ensures nul { (result ≡ Err TextFault.Nul) ↔ ¬ IsText bytes.now }
    {
        if bytes.contains(&0) {
            return Err(TextFault::Nul);
        }
        let bytes = Vec::from_slice(alloc, bytes)?;
        Ok(Text { bytes })
    }

    /// The text of these bytes, or the bytes where one of them is NUL. It takes no memory.
    pub fn from_vec(bytes: Vec<u8>) -> Result<Self, Vec<u8>>
        ensures ok { IfOk result (λ text. text ≡ bytes.items) }
        ensures nul { IsErr result ↔ ¬ IsText bytes.items }
        ensures err { IfErr result (λ rest. rest.items ≡ bytes.items) }
    {
        if bytes.as_slice().contains(&0) {
            return Err(bytes);
        }
        Ok(Text::of(bytes))
    }

    /// The text of these bytes, none of which is NUL.
    pub(crate) fn of(bytes: Vec<u8>) -> Self
        requires { IsText bytes.items }
        ensures { result ≡ bytes.items }
    {
        Self { bytes }
    }

    /// The bytes, without taking memory.
    pub fn into_vec(self) -> Vec<u8>
        ensures bytes { result.items ≡ self }
        ensures text { IsText result.items }
    {
        let Text { bytes } = self;
        bytes
    }

    /// The bytes.
    pub fn as_bytes(&self) -> &[u8]
        ensures bytes { result.now ≡ self.now }
        ensures text { IsText result.now }
    {
        self.bytes.as_slice()
    }

    /// An equal text. The only error is out of memory.
    pub fn try_clone(&self, alloc: Global) -> Result<Self, NoMem>
        ensures equal { IfOk result (λ text. text ≡ self.now) }
        ensures text { IsText self.now }
    {
        let bytes = Vec::from_slice(alloc, self.bytes.as_slice())?;
        Ok(Text { bytes })
    }
}
