//! A secret that is used up on every way out.

ghost use Rattle.std.specs.Prelude.{◌≡◌, None};
ghost use Rattle.profile.specs.Secrets.{zeros};

use crate::secret::SecretPlace;

/// Holds a secret place while its secret is in use, and erases it once it is let go.
pub struct SecretGuard<'a, S: SecretPlace> {
    /// where the secret is held
    pub place: &'a mut S,
}

impl<S: SecretPlace> Drop for SecretGuard<'_, S> {
    fn drop(self)
        ensures unfilled { S.held self.exit.0.now ≡ None }
        ensures zeroed { S.memory self.exit.0.now ≡ zeros S.bounds.n }
    {
        self.place.erase();
        let SecretGuard { place: _ } = self;
    }
}
