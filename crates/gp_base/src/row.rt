ghost use Rattle.std.specs.Prelude.{◌≡◌, ◌+◌, ◌<◌, ◌==◌, [], ◌∷◌, ◌++◌, List, length, OnOk, OnErr, slice_set};
ghost use Rattle.std.specs.List.{AllZip};

use std::alloc::{AllocError, Global};
use std::marker::Model;

/// A `Vec` that contracts see as the list of its elements.
#[derive(Drop)]
pub struct Row<T> {
    vec: Vec<T>,
}

impl<T> Model for Row<T> {
    ghost use Rattle.std.specs.Prelude.{List};

    ghost Value = { List T };

    ghost view = { λ r. r.vec.items };
}

impl<T> Row<T> {
    /// An empty row, which takes no memory.
    pub fn new(alloc: Global) -> Row<T>
        ensures { result ≡ [] }
    {
        Row {
            vec: Vec::new(alloc),
        }
    }

    /// The row of the elements of `vec`, which takes no memory.
    pub fn from_vec(vec: Vec<T>) -> Row<T>
        ensures { result ≡ vec.items }
    {
        Row { vec }
    }

    /// The elements as a `Vec`, which takes no memory.
    pub fn into_vec(self) -> Vec<T>
        ensures { result.items ≡ self }
    {
        let Row { vec } = self;
        vec
    }

    /// The elements, in order.
    pub fn as_slice(&self) -> &[T]
        ensures { result.now ≡ self.now }
    {
        self.vec.as_slice()
    }

    pub fn len(&self) -> usize
        ensures { result ≡ length self.now }
    {
        self.vec.len()
    }

    pub fn is_empty(&self) -> bool
        ensures { result ≡ (length self.now == 0) }
    {
        self.vec.is_empty()
    }
}

impl<T: Drop> Row<T> {
    /// Adds `value` at the end.
    pub fn push(&mut self, value: T) -> Result<(), AllocError>
        ensures ok { OnOk result (self.new ≡ self.old ++ value ∷ []) }
        ensures err { OnErr result (self.new ≡ self.old) }
    {
        self.vec.push(value)?;
        Ok(())
    }

    /// Puts `value` in the place of the element at `index`.
    pub fn set(&mut self, index: usize, value: T)
        requires { index < length self.old }
        ensures { self.new ≡ slice_set self.old index value }
    {
        self.vec[index] = value;
    }
}

/// A clone has clones of the elements, in order.
impl<T: Clone> Clone for Row<T> {
    ghost is_clone = { λ row copy. AllZip T.is_clone row copy };

    fn clone(&self) -> Result<Row<T>, AllocError> {
        Ok(Row::from_vec(self.vec.clone()?))
    }
}
