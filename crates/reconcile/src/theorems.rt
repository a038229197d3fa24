//! What is proved of the reconcilers as a whole. A theorem stands on a function's contract, where
//! the check asks for its proof.

ghost use Rattle.reconcile.specs.EveryModulus.{ReconcileAtEveryModulus};

/// Ding and OKCN keep the laws of a reconciler at every odd modulus from 3 to below 2^23.
pub fn reconcilers_hold_at_every_modulus()
    ensures { ReconcileAtEveryModulus }
{}
