use constraint::{Range, StringList, WordList};
use sane_fixed::{Cap, Kind, NoMem, Text, Unit};
use std::alloc::Global;

/// The values that an option may have (SANE Standard 1.06, "Option Descriptors").
#[derive(Debug, Drop)]
pub enum Constraint {
    /// Any value.
    Free,
    /// The words of a range.
    Span(Range),
    /// The words of a list.
    Words(WordList),
    /// The texts of a list.
    Strings(StringList),
}

impl Constraint {
    ghost use Rattle.std.specs.Prelude.{◌≡◌, true, IfOk, OnErr};
    ghost use Rattle.option_desc.specs.WellFormed.{IsWellFormed};
    ghost use Rattle.option_desc.specs.Representable.{lists_take_memory};

    /// A law: what the constructors of ranges and lists promise.
    pub fn keeps(&self)
        ensures { IsWellFormed self.now }
    {
        match self {
            Constraint::Free => {}
            Constraint::Span(range) => {
                let _ = range.quant();
            }
            Constraint::Words(list) => {
                let _ = list.as_slice();
            }
            Constraint::Strings(list) => {
                let _ = list.as_slice();
            }
        }
    }

    /// An equal constraint. The only error is out of memory, of a list.
    pub fn try_clone(&self, alloc: Global) -> Result<Constraint, NoMem>
        ensures equal { IfOk result (λ copy. copy ≡ self.now) }
        ensures memory { OnErr result (lists_take_memory self.now ≡ true) }
    {
        Ok(match self {
            Constraint::Free => Constraint::Free,
            Constraint::Span(range) => Constraint::Span(*range),
            Constraint::Words(list) => Constraint::Words(list.try_clone(alloc)?),
            Constraint::Strings(list) => Constraint::Strings(list.try_clone(alloc)?),
        })
    }
}

/// What is known of an option (SANE Standard 1.06, "Option Descriptors").
#[derive(Debug, Drop)]
pub struct Descriptor {
    pub name: Text,
    pub title: Text,
    /// The standard's description.
    pub about: Text,
    pub kind: Kind,
    pub unit: Unit,
    /// The size of a value in bytes: 4 for each word, and for a text the most that it may have with a NUL.
    pub size: u32,
    pub caps: Cap,
    pub constraint: Constraint,
}

impl Descriptor {
    ghost use Rattle.std.specs.Prelude.{◌≡◌, IfOk};

    /// An equal descriptor. The only error is out of memory.
    pub fn try_clone(&self, alloc: Global) -> Result<Descriptor, NoMem>
        ensures { IfOk result (λ copy. copy ≡ self.now) }
    {
        Ok(Descriptor {
            name: self.name.try_clone(alloc)?,
            title: self.title.try_clone(alloc)?,
            about: self.about.try_clone(alloc)?,
            kind: self.kind,
            unit: self.unit,
            size: self.size,
            caps: self.caps,
            constraint: self.constraint.try_clone(alloc)?,
        })
    }
}
