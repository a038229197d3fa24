//! The words that a secret is kept in.

ghost use Rattle.std.specs.Prelude.{◌≡◌, ◌≤◌, length};
ghost use Rattle.profile.specs.Secrets.{zeros};

/// It is not Drop: it can only be freed, and that asks that every word is 0.
pub(crate) struct Memory {
    pub(crate) words: Vec<i32>,
}

impl Memory {
    /// Gives the memory back.
    pub(crate) fn free(self)
        requires { self.words.items ≡ zeros (length self.words.items) }
    {
        let Memory { words: _ } = self;
    }
}

/// Overwrites every word with 0.
pub(crate) fn overwrite(words: &mut [i32])
    ensures { words.new ≡ zeros (length words.old) }
{
    words.fill(0);
}
