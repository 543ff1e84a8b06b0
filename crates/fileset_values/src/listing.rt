ghost use Rattle.std.specs.Prelude.{◌≡◌};

use std::marker::Model;

/// A list that contracts see as its elements, in order.
#[derive(Debug, Drop)]
pub struct Listing<T> {
    items: Vec<T>,
}

impl<T> Model for Listing<T> {
    ghost use Rattle.std.specs.Prelude.{List};
    ghost use Rattle.std.specs.Coded.{coded_list};

    ghost Value = { List T };

    ghost coded = { coded_list T.code };

    ghost view = { λ l. l.items.items };
}

impl<T> Listing<T> {
    pub fn from_vec(items: Vec<T>) -> Listing<T>
        ensures { result ≡ items.items }
    {
        Listing { items }
    }

    pub fn into_vec(self) -> Vec<T>
        ensures { result.items ≡ self }
    {
        self.items
    }

    pub fn as_slice(&self) -> &[T]
        ensures { result.now ≡ self.now }
    {
        self.items.as_slice()
    }
}
