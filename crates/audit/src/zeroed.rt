//! The caller's memory, which is zero when a check lets go of it.
ghost use Rattle.std.specs.Prelude.{◌≡◌, ℕ, ◌<◌, length, slice_index_or};

/// Places that are all as by default when this goes, whatever is written to them before.
pub(crate) struct Zeroed<'a, T: Copy + Default>(pub(crate) &'a mut [T]);

impl<T: Copy + Default> Drop for Zeroed<'_, T> {
    fn drop(self)
        ensures long { length self.exit.0.now ≡ length self.entry.0.now }
        ensures zero { (k : ℕ) (d : T) → k < length self.entry.0.now
            → T.is_default (slice_index_or self.exit.0.now k d) }
    {
        let Zeroed(places) = self;
        for place in places.iter_mut() {
            *place = T::default();
        }
    }
}
