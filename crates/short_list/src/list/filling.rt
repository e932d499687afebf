ghost use Rattle.std.specs.Prelude.{◌≡◌, ◌<◌, ◌≤◌, [], ◌+◌, ◌-◌, min, ◌∷◌, ◌++◌, length, take, slice_set, MatchResult};
ghost use Rattle.short_list.specs.Lists.{items};

use super::ShortList;
use std::ops::DerefSlice;

// Writes elements from a place on, as many as there are places left, and says how many.
fn write_behind<T: Copy>(places: &mut [T], used: usize, elements: &[T]) -> usize
    requires { used ≤ length places.old }
    ensures count { result ≡ min (length elements.now) (length places.old - used) }
    ensures sized { length places.new ≡ length places.old }
    ensures written { take (used + result) places.new ≡ take used places.old ++ take (length places.old - used) elements.now }
{
    let count = elements.len().min(places.len() - used);
    places[used..used + count].copy_from_slice(&elements[..count]);
    count
}

impl<T: Copy + Default, const N: usize> ShortList<T, N> {
    // An empty list.
    pub fn new() -> Self
        ensures { items result ≡ [] }
    {
        ShortList {
            places: [T::default(); N],
            count: 0,
        }
    }
}

impl<T: Copy, const N: usize> ShortList<T, N> {
    pub fn len(&self) -> usize
        ensures value { result ≡ length (items self.now) }
        ensures fits { result ≤ N }
    {
        self.as_slice().len()
    }

    // One element more at the end. A full list stays as it is.
    pub fn push(&mut self, element: T)
        ensures room { length (items self.old) < N → items self.new ≡ items self.old ++ element ∷ [] }
        ensures longer { length (items self.old) < N → length (items self.new) ≡ length (items self.old) + 1 }
        ensures full { N ≤ length (items self.old) → self.new ≡ self.old }
    {
        if self.count < N {
            self.places[self.count] = element;
            self.count += 1;
        }
    }

    // Puts an element in the place of another. Past the end nothing changes.
    pub fn set(&mut self, index: usize, element: T)
        ensures { items self.new ≡ slice_set (items self.old) index element }
    {
        if index < self.count {
            self.places[index] = element;
        }
    }

    // Keeps the elements behind those that are held, as many as there is room for, and says how many.
    pub fn append(&mut self, elements: &[T]) -> usize
        ensures count { result ≡ min (length elements.now) (N - length (items self.old)) }
        ensures appended { items self.new ≡ items self.old ++ take (N - length (items self.old)) elements.now }
    {
        let count = write_behind(&mut self.places, self.count, elements);
        self.count += count;
        count
    }

    // Keeps the first so many elements, or all where there are fewer.
    pub fn truncate(&mut self, count: usize)
        ensures { items self.new ≡ take count (items self.old) }
    {
        self.count = self.count.min(count);
    }

    // The elements.
    pub fn as_slice(&self) -> &[T]
        ensures value { result.now ≡ items self.now }
        ensures fits { length result.now ≤ N }
    {
        &self.places[..self.count]
    }
}

impl<T: Copy, const N: usize> DerefSlice for ShortList<T, N> {
    type Elem = T;

    ghost deref_gives = { λ list xs. (xs ≡ items list) × (length xs ≤ N) };

    fn deref(&self) -> &[T] {
        self.as_slice()
    }
}

impl<T: Copy + Default, const N: usize> Default for ShortList<T, N> {
    ghost is_default = { λ list. items list ≡ [] };

    fn default() -> Self {
        Self::new()
    }
}

// The elements do not fit.
#[derive(Clone, Copy, Debug, PartialEq, Eq)]
pub struct TooLong;

impl<T: Copy + Default, const N: usize> TryFrom<&[T]> for ShortList<T, N> {
    type Error = TooLong;

    ghost try_from_gives = { λ xs result. MatchResult result (λ list. (items list ≡ xs.now) × (length xs.now ≤ N)) (λ _. N < length xs.now) };

    fn try_from(elements: &[T]) -> Result<Self, TooLong> {
        if N < elements.len() {
            return Err(TooLong);
        }
        let mut list = Self::new();
        list.append(elements);
        Ok(list)
    }
}
