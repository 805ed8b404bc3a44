use sane_fixed::{Fixed, NoMem, Text};
use std::alloc::Global;
use std::marker::Model;

/// Words in a row. Contracts see the list.
#[derive(Debug, Drop)]
pub struct Words {
    words: Vec<i32>,
}

impl Model for Words {
    ghost use Rattle.std.specs.Prelude.{List, ℤ};

    ghost Value = { List ℤ };

    ghost view = { λ w. w.words.items };
}

impl PartialEq for Words {
    ghost use Rattle.std.specs.Cmp.Lexicographic.{pointwise};
    ghost use Rattle.std.specs.Ordering.{int_eq};
    ghost use Rattle.std.proofs.Common.{rules};
    ghost use Rattle.std.specs.Cmp.Rules.{comparing};

    ghost eq = { pointwise int_eq };

    ghost laws = { Prim.search (comparing, rules) };

    fn eq(&self, other: &Words) -> bool {
        self.words == other.words
    }
}

impl Eq for Words {
    ghost use Rattle.std.proofs.Common.{rules};
    ghost use Rattle.std.specs.Cmp.Rules.{comparing};

    ghost laws = { Prim.search (comparing, rules) };
}

impl Words {
    ghost use Rattle.std.specs.Prelude.{◌≡◌, IfOk};

    /// These words; it takes no memory.
    pub fn from_vec(words: Vec<i32>) -> Words
        ensures { result ≡ words.items }
    {
        Words { words }
    }

    /// The words, without taking memory.
    pub fn into_vec(self) -> Vec<i32>
        ensures { result.items ≡ self }
    {
        let Words { words } = self;
        words
    }

    /// The words in their order.
    pub fn as_slice(&self) -> &[i32]
        ensures { result.now ≡ self.now }
    {
        self.words.as_slice()
    }

    /// Equal words. The only error is out of memory.
    pub fn try_clone(&self, alloc: Global) -> Result<Words, NoMem>
        ensures { IfOk result (λ words. words ≡ self.now) }
    {
        let words = Vec::from_slice(alloc, self.words.as_slice())?;
        Ok(Words::from_vec(words))
    }
}

/// An option's value (SANE Standard 1.06, "Value Type"). An integer or a fixed number stands alone
/// where the option has one word, and in `Words` where it has more.
#[derive(Debug, Drop, PartialEq, Eq)]
pub enum Value {
    Flag(bool),
    Int(i32),
    Fixed(Fixed),
    Words(Words),
    Text(Text),
}

impl Value {
    ghost use Rattle.std.specs.Prelude.{◌≡◌, true, IfOk, OnErr};
    ghost use Rattle.option_desc.specs.Representable.{takes_memory};

    /// An equal value. The only error is out of memory, of words in a row and of texts.
    pub fn try_clone(&self, alloc: Global) -> Result<Value, NoMem>
        ensures equal { IfOk result (λ copy. copy ≡ self.now) }
        ensures memory { OnErr result (takes_memory self.now ≡ true) }
    {
        Ok(match self {
            Value::Flag(flag) => Value::Flag(*flag),
            Value::Int(word) => Value::Int(*word),
            Value::Fixed(fixed) => Value::Fixed(*fixed),
            Value::Words(words) => Value::Words(words.try_clone(alloc)?),
            Value::Text(text) => Value::Text(text.try_clone(alloc)?),
        })
    }
}
