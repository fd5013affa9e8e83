//! A vector that contracts see as the list of its items.

ghost use Rattle.std.specs.Prelude.{◌≡◌, ◌<◌, ◌≤◌, ◌-◌, ◌++◌, ◌∷◌, [], Some, length, take, drop, slice_get, slice_set, OnOk, OnErr};
ghost use Rattle.std.specs.List.{remove};

use crate::NoMemory;
use crate::share::Share;
use std::alloc::Global;
use std::marker::Model;

/// A `Vec` that contracts see as the list of its items.
#[derive(Debug, Drop)]
pub struct List<T> {
    items: Vec<T>,
}

impl<T> Model for List<T> {
    ghost use Rattle.std.specs.Prelude.{List as Items};
    ghost use Rattle.std.specs.Coded.{coded_list};

    ghost Value = { Items T };

    ghost coded = { coded_list T.code };

    ghost view = { λ l. l.items.items };
}

impl<T> List<T> {
    /// A list without items. It takes no memory.
    pub fn new(alloc: Global) -> Self
        ensures { result ≡ [] }
    {
        List {
            items: Vec::new(alloc),
        }
    }

    pub fn from_vec(v: Vec<T>) -> Self
        ensures { result ≡ v.items }
    {
        List { items: v }
    }

    pub fn as_slice(&self) -> &[T]
        ensures { result.now ≡ self.now }
    {
        self.items.as_slice()
    }

    pub fn into_vec(self) -> Vec<T>
        ensures { result.items ≡ self }
    {
        self.items
    }

    /// Takes the item at a place out. Those behind it move up.
    pub fn remove(&mut self, at: usize) -> T
        requires { at < length self.old }
        ensures rest { self.new ≡ remove self.old at }
        ensures item { Some result ≡ slice_get self.old at }
    {
        self.items.remove(at)
    }
}

impl<T: Drop> List<T> {
    /// Puts an item at the end. Where memory is wanting, the item is dropped.
    pub fn push(&mut self, item: T) -> Result<(), NoMemory>
        ensures ok { OnOk result (self.new ≡ self.old ++ item ∷ []) }
        ensures err { OnErr result (self.new ≡ self.old) }
    {
        self.items.push(item)?;
        Ok(())
    }

    /// Puts an item in the place of another, which is dropped.
    pub fn set(&mut self, at: usize, item: T)
        requires { at < length self.old }
        ensures { self.new ≡ slice_set self.old at item }
    {
        self.items[at] = item;
    }

    /// Drops the last item.
    pub fn cut_last(&mut self)
        requires { 0 < length self.old }
        ensures { self.new ≡ take (length self.old - 1) self.old }
    {
        self.items.truncate(self.items.len() - 1);
    }

    /// Drops the first items. Those behind them move up.
    pub fn cut_first(&mut self, count: usize)
        requires { count ≤ length self.old }
        ensures { self.new ≡ drop count self.old }
    {
        let rest = self.items.len() - count;
        self.items.as_mut_slice().rotate_left(count);
        self.items.truncate(rest);
    }
}

impl<T: Share + Drop> Share for List<T> {
    fn share(&self, alloc: Global) -> Result<Self, NoMemory> {
        let mut copies = Vec::with_capacity(alloc, self.items.len())?;
        for item in self.items.as_slice() {
            copies.push(item.share(alloc)?)?;
        }
        Ok(List { items: copies })
    }
}
