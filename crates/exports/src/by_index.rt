//! The house profiles by an index.

// The code that a call has with the profile of the index for `P`, or NO_CALL where there is no
// such profile: 0 T Ding, 1 T OKCN, 2 S Ding, 3 S OKCN, 4 W Ding, 5 W OKCN.
macro_rules! by_index {
    ($index:expr, $($call:tt)*) => {
        match $index {
            0 => $crate::by_index::with!(house::House<house::T, reconcile::Ding>, $($call)*),
            1 => $crate::by_index::with!(house::House<house::T, reconcile::Okcn>, $($call)*),
            2 => $crate::by_index::with!(house::House<house::S, reconcile::Ding>, $($call)*),
            3 => $crate::by_index::with!(house::House<house::S, reconcile::Okcn>, $($call)*),
            4 => $crate::by_index::with!(house::House<house::W, reconcile::Ding>, $($call)*),
            5 => $crate::by_index::with!(house::House<house::W, reconcile::Okcn>, $($call)*),
            _ => $crate::codes::NO_CALL,
        }
    };
}

// A call with a profile for its `P`: of a function of the profile, or of a function or a method
// that is generic over a profile.
macro_rules! with {
    ($profile:ty, P::$($call:tt)*) => { <$profile>::$($call)* };
    ($profile:ty, $function:ident::<P, $($call:tt)*) => { $function::<$profile, $($call)* };
    ($profile:ty, $function:ident::<P>$($call:tt)*) => { $function::<$profile>$($call)* };
    ($profile:ty, $value:ident.$method:ident::<P>$($call:tt)*) => {
        $value.$method::<$profile>$($call)*
    };
}

pub(crate) use by_index;
pub(crate) use with;
