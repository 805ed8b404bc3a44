use option_desc::{Descriptor, Value};
use sane_fixed::NoMem;
use std::alloc::Global;
use std::marker::Model;

/// Things in their order. Contracts see the list.
#[derive(Drop)]
pub struct ItemList<T> {
    items: Vec<T>,
}

impl<T> Model for ItemList<T> {
    ghost use Rattle.std.specs.Prelude.{List};

    ghost Value = { List T };

    ghost view = { λ l. l.items.items };
}

impl<T> ItemList<T> {
    ghost use Rattle.std.specs.Prelude.{◌≡◌, ◌++◌, ◌∷◌, [], OnOk, OnErr};

    /// Nothing.
    pub fn none(alloc: Global) -> ItemList<T>
        ensures { result ≡ [] }
    {
        ItemList {
            items: Vec::new(alloc),
        }
    }

    /// These things; it takes no memory.
    pub fn from_vec(items: Vec<T>) -> ItemList<T>
        ensures { result ≡ items.items }
    {
        ItemList { items }
    }

    /// The things in their order.
    pub fn as_slice(&self) -> &[T]
        ensures { result.now ≡ self.now }
    {
        self.items.as_slice()
    }

    /// One more, last.
    pub fn add(&mut self, item: T) -> Result<(), NoMem>
    where
        T: Drop,
        ensures ok { OnOk result (self.new ≡ self.old ++ item ∷ []) }
        ensures err { OnErr result (self.new ≡ self.old) }
    {
        self.items.push(item)?;
        Ok(())
    }

    /// The things, which leave; it takes no memory.
    pub fn take_all(&mut self, alloc: Global) -> ItemList<T>
        ensures all { result ≡ self.old }
        ensures none { self.new ≡ [] }
    {
        let none = ItemList {
            items: Vec::new(alloc),
        };
        std::mem::replace(self, none)
    }
}

impl ItemList<(Descriptor, Option<Value>)> {
    ghost use Rattle.std.specs.Prelude.{◌≡◌};
    ghost use Rattle.scan_job.specs.KnownValues.{with_known_value};

    /// The option at that place has that value.
    pub fn tell(&mut self, n: usize, value: Value)
        ensures { self.new ≡ with_known_value n value self.old }
    {
        if n < self.items.len() {
            let option = &mut self.items[n];
            option.1 = Some(value);
        }
    }
}
