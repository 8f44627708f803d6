//! A queue in the caller's memory: first in, first out, in a ring of places. It allocates nothing.
ghost use Rattle.std.specs.Prelude.{◌≡◌, ◌+◌, ◌-◌, ◌<◌, ◌≤◌, [], ◌∷◌, ◌++◌, length, MatchOption, MatchResult, ◌==◌, slice_index_or, slice_set};

/// A first-in first-out queue in the caller's places.
// With its length beside the places: memory is the caller's here, nothing is allocated, and so no `VecDeque` serves.
#[derive(Drop)]
pub struct Queue<'a, T> {
    slots: &'a mut [T],
    // where the oldest stands; the others follow it, and place 0 follows the last place
    first: usize,
    len: usize,
    ghost fits: { len ≤ length slots.now },
    ghost inside: { first ≤ length slots.now - 1 },
}

// That a call leaves the queue on the same slice is a clause of each, `same`: it is about before and after, which no type can tell.
impl<'a, T: Copy> Queue<'a, T> {
    ghost use Rattle.device.specs.Queues.{ring, waiting, places, in_places, places_at, Joins, IsFull, At};

    /// An empty queue in these places, which it leaves as they are.
    pub fn new(slots: &'a mut [T]) -> Queue<'a, T>
        ensures empty { waiting result ≡ [] }
        ensures untouched { in_places result ≡ slots.old }
        ensures same { places_at result ≡ slots.entry.ghost_name }
    {
        Queue {
            slots,
            first: 0,
            len: 0,
        }
    }

    /// How many wait.
    pub fn len(&self) -> usize
        ensures count { result ≡ length (waiting self.now) }
        ensures fit { result ≤ places self.now }
    {
        self.len // of those that wait
    }

    /// Whether nothing waits.
    pub fn is_empty(&self) -> bool
        ensures { result ≡ (length (waiting self.now) == 0) }
    {
        self.len() == 0
    }

    /// For how many there are places.
    pub fn places(&self) -> usize
        ensures { result ≡ places self.now }
    {
        self.slots.len()
    }

    /// The one before which `k` others came, if more than `k` wait.
    pub fn get(&self, k: usize) -> Option<T>
        ensures { MatchOption result
            (length (waiting self.now) ≤ k)
            (λ x. At (waiting self.now) k x) }
    {
        if k >= self.len {
            return None;
        }
        Some(self.read(k))
    }

    /// Puts one behind all others, or gives it back if every place is taken.
    pub fn push(&mut self, x: T) -> Result<(), T>
        ensures put { MatchResult result
            (λ _. Joins x self.old self.new)
            (λ y. (y ≡ x) × IsFull self.old × (self.new ≡ self.old)) }
        ensures room { places self.new ≡ places self.old }
        ensures same { places_at self.new ≡ places_at self.old }
    {
        if self.len == self.slots.len() {
            return Err(x);
        }
        let len = self.len;
        let end = self.place(len);
        self.slots[end] = x;
        self.len = len + 1;
        Ok(())
    }

    /// Takes out the oldest.
    pub fn pop(&mut self) -> Option<T>
        ensures taken { MatchOption result
            ((waiting self.old ≡ []) × (self.new ≡ self.old))
            (λ x. waiting self.old ≡ x ∷ waiting self.new) }
        ensures untouched { in_places self.new ≡ in_places self.old }
        ensures same { places_at self.new ≡ places_at self.old }
    {
        if self.len == 0 {
            return None;
        }
        let oldest = self.read(0);
        self.first = self.second();
        self.len -= 1;
        Some(oldest)
    }

    /// Lets go of all that wait.
    pub fn clear(&mut self)
        ensures empty { waiting self.new ≡ [] }
        ensures untouched { in_places self.new ≡ in_places self.old }
        ensures same { places_at self.new ≡ places_at self.old }
    {
        self.len = 0;
    }

    /// The caller's places, as they stand.
    pub fn into_slots(self) -> &'a mut [T]
        ensures value { result.now ≡ in_places self.entry }
        ensures same { result.ghost_name ≡ places_at self.entry }
    {
        let Queue { slots, .. } = self;
        slots
    }

    /// Those that wait, oldest first, as they stand in the places: in two pieces, since place 0 follows the last.
    pub fn as_slices(&self) -> (&[T], &[T])
        ensures { waiting self.now ≡ result.0.now ++ result.1.now }
    {
        let (second, first) = self.slots.split_at(self.first);
        match self.len.checked_sub(first.len()) {
            Some(more) => (first, &second[..more]),
            None => (&first[..self.len], &second[..0]),
        }
    }

    // The place that stands so many after that of the oldest: there the one is put that comes behind
    // so many others, and there it is read.
    fn place(&self, after: usize) -> usize
        requires { after < places self.now }
        ensures inside { result < length self.now.slots.now }
        ensures puts { after ≡ self.now.len → (x : T)
            → ring (slice_set self.now.slots.now result x) self.now.first (after + 1)
            ≡ waiting self.now ++ x ∷ [] }
        ensures reads { after < self.now.len → (d : T)
            → slice_index_or (waiting self.now) after d
            ≡ slice_index_or self.now.slots.now result d }
    {
        let past = self.slots.len() - self.first;
        if after < past {
            self.first + after
        } else {
            after - past
        }
    }

    // The one before which so many others came.
    fn read(&self, before: usize) -> T
        requires { before < self.now.len }
        ensures any { (d : T) → slice_index_or (waiting self.now) before d ≡ result }
        ensures own { slice_index_or (waiting self.now) before result ≡ result }
    {
        let at = self.place(before);
        item(self.slots, at)
    }

    // The place of the second oldest: from there on stand all but the oldest.
    fn second(&self) -> usize
        requires { 0 < self.now.len }
        ensures inside { result ≤ places self.now - 1 }
        ensures rest { (x : T) → waiting self.now
            ≡ slice_index_or (waiting self.now) 0 x
            ∷ ring self.now.slots.now result (self.now.len - 1) }
    {
        let next = self.first + 1;
        if next < self.slots.len() { next } else { 0 }
    }
}

// What stands at a place.
fn item<T: Copy>(slots: &[T], at: usize) -> T
    requires { at < length slots.now }
    ensures { result ≡ slice_index_or slots.now at result }
{
    slots[at]
}
