//! What tests make is owned here, and lent to what judges it.
//!
//! The prover follows each drop through all fields of what is dropped. Of a `T` it follows nothing, so a test that hands what it made to one of these
//! functions is proved much sooner than one that owns it.

/// Whether it was made, and passes the test.
pub fn passes<T: Drop, F: FnOnce(&mut T) -> bool + Drop>(made: Option<T>, test: F) -> bool
    requires { F.IsAlwaysCallable test }
{
    match made {
        Some(mut made) => test(&mut made),
        None => false,
    }
}

/// What comes of it; none where it was not made.
pub fn judged<T: Drop, R, F: FnOnce(&mut T) -> Option<R> + Drop>(
    made: Option<T>,
    judge: F,
) -> Option<R>
    requires { F.IsAlwaysCallable judge }
{
    match made {
        Some(mut made) => judge(&mut made),
        None => None,
    }
}

/// The value, where it is kept.
pub fn kept<T: Drop>(value: T, keep: bool) -> Option<T> {
    if keep { Some(value) } else { None }
}
