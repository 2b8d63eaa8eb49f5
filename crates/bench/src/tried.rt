//! Values that are dropped in one call if what is made beside them fails.

/// A value, and what is made beside it. If that isn't made, the value is dropped here, in one call, and not part for part where it was to
/// be kept.
pub fn beside<A: Drop, B: Drop, E: Drop>(value: A, made: Result<B, E>) -> Result<(A, B), E> {
    let made = made?;
    Ok((value, made))
}

/// A value once this is done to it.
pub fn after<T: Drop, E: Drop>(value: T, done: Result<(), E>) -> Result<T, E> {
    done?;
    Ok(value)
}
