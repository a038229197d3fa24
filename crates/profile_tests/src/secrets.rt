//! Filling and erasing a secret place.

use house::{House, S};
use profile::{Profile, SecretGuard, SecretPlace};
use reconcile::Ding;
use ring::Fault;
use std::test::Fail;

/// The place of a secret of the profile of S with Ding.
type SecretOfS = <House<S, Ding> as Profile>::Secret;

/// 512 coefficients, of which the first `many` are `value`.
fn leading(many: usize, value: i32) -> [i32; 512] {
    let mut list = [0; 512];
    for c in list.iter_mut().take(many) {
        *c = value;
    }
    list
}

#[test]
fn sum_at_the_limit_fills(rt: HostRuntime) -> Result<(), Fail> {
    let mut place = SecretOfS::new(rt.alloc())?;
    assert!(rt; place.secret().is_none());
    assert_eq!(rt; place.fill(&leading(191, -1)), Ok(()));
    assert!(rt; place.secret().is_some());
    Ok(())
}

#[test]
fn sum_past_the_limit_is_refused(rt: HostRuntime) -> Result<(), Fail> {
    let mut place = SecretOfS::new(rt.alloc())?;
    assert_eq!(rt; place.fill(&leading(192, 1)), Err(Fault::SumTooLarge(191)));
    assert_eq!(rt; place.fill(&leading(96, 2)), Err(Fault::SumTooLarge(95)));
    assert!(rt; place.secret().is_none(), "a refused place stays as it was");
    Ok(())
}

#[test]
fn length_comes_before_size_and_size_before_sum(rt: HostRuntime) -> Result<(), Fail> {
    let mut place = SecretOfS::new(rt.alloc())?;
    let mut list = leading(512, 2);
    list[511] = 3;
    assert_eq!(rt; place.fill(&list), Err(Fault::OutOfRange(511)));
    assert_eq!(rt; place.fill(&list[0..511]), Err(Fault::WrongLength(1)));
    list[7] = i32::MIN;
    assert_eq!(rt; place.fill(&list), Err(Fault::OutOfRange(7)));
    Ok(())
}

#[test]
fn refused_keeps_accepted_replaces_erased_holds_nothing(rt: HostRuntime) -> Result<(), Fail> {
    let mut place = SecretOfS::new(rt.alloc())?;
    assert_eq!(rt; place.fill(&leading(3, 1)), Ok(()));
    assert_eq!(rt; place.fill(&leading(3, 9)), Err(Fault::OutOfRange(0)));
    assert_eq!(rt;
        place.secret(),
        Some(&leading(3, 1)[..]),
        "refused, it keeps the old secret"
    );
    assert_eq!(rt; place.fill(&leading(4, 2)), Ok(()));
    assert_eq!(rt;
        place.secret(),
        Some(&leading(4, 2)[..]),
        "accepted, it holds the new one"
    );
    assert_eq!(rt; place.words(), &leading(4, 2)[..]);
    place.erase();
    assert!(rt; place.secret().is_none());
    assert_eq!(rt; place.words(), &leading(0, 1)[..]);
    Ok(())
}

#[test]
fn guard_uses_the_secret_up(rt: HostRuntime) -> Result<(), Fail> {
    let mut place = SecretOfS::new(rt.alloc())?;
    assert_eq!(rt; place.fill(&leading(4, 2)), Ok(()));
    {
        let guard = SecretGuard { place: &mut place };
        assert!(rt; guard.place.secret().is_some());
    }
    assert!(rt; place.secret().is_none());
    Ok(())
}
