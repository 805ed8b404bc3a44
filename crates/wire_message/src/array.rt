use std::marker::Model;

/// Elements in a row, as messages have them. Contracts see the list.
#[derive(Debug, Drop)]
pub struct Array<T> {
    items: Vec<T>,
}

impl<T> Model for Array<T> {
    ghost use Rattle.std.specs.Prelude.{List};

    ghost Value = { List T };

    ghost view = { λ array. array.items.items };
}

impl<T> Array<T> {
    ghost use Rattle.std.specs.Prelude.{◌≡◌};

    /// These elements; it takes no memory.
    pub fn from_vec(items: Vec<T>) -> Array<T>
        ensures { result ≡ items.items }
    {
        Array { items }
    }

    /// The elements, without taking memory.
    pub fn into_vec(self) -> Vec<T>
        ensures { result.items ≡ self }
    {
        let Array { items } = self;
        items
    }

    /// The elements in their order.
    pub fn as_slice(&self) -> &[T]
        ensures { result.now ≡ self.now }
    {
        self.items.as_slice()
    }
}
