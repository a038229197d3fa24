//! Scratch words that are zero again once they are let go.

ghost use Rattle.std.specs.Prelude.{◌≡◌};
ghost use Rattle.ring.specs.Scratch.{zeroed};

/// Holds all words of a caller's scratch while they are in use.
pub struct ScratchGuard<'a> {
    /// all of them, also those that a call does not need
    pub words: &'a mut [u32],
}

impl Drop for ScratchGuard<'_> {
    fn drop(self)
        ensures { self.exit.0.now ≡ zeroed self.entry.words.now }
    {
        self.words.fill(0);
        let ScratchGuard { words: _ } = self;
    }
}
