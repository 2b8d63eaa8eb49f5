//! What calls are tried with.

use crate::sheet::Sheet;
use crate::try_error::TryError;
use std::alloc::Global;

/// What calls are tried with: the value that they are called on, and what else they are given.
pub trait Tried: Drop {
    /// Does the call of this name, and shows what it gives, or what the value is then.
    fn once(&mut self, alloc: Global, sheet: &mut Sheet, call: &str) -> Result<(), TryError>;
}

/// A value, and what is made beside it. Where that isn't made, the value is dropped here, in one call, and not part for part where it was
/// to be kept.
pub fn beside<A: Drop, B: Drop, E: Drop>(value: A, made: Result<B, E>) -> Result<(A, B), E> {
    let made = made?;
    Ok((value, made))
}

/// A value once this is done to it.
pub fn after<T: Drop, E: Drop>(value: T, done: Result<(), E>) -> Result<T, E> {
    done?;
    Ok(value)
}

/// Does the call of this name twice on the same value.
pub fn both_times<T: Tried>(
    alloc: Global,
    sheet: &mut Sheet,
    call: &str,
    tried: &mut T,
) -> Result<(), TryError> {
    let first = tried.once(alloc, sheet, call);
    sheet.settle(first)?;
    let second = tried.once(alloc, sheet, call);
    sheet.settle(second)
}

/// The same, and gives the value up.
pub fn tried_twice<T: Tried>(
    alloc: Global,
    sheet: &mut Sheet,
    call: &str,
    mut tried: T,
) -> Result<(), TryError> {
    both_times(alloc, sheet, call, &mut tried)
}

/// The same of a call that may change the value.
pub fn changed_twice<T: Tried>(
    alloc: Global,
    sheet: &mut Sheet,
    call: &str,
    tried: T,
) -> Result<(), TryError> {
    tried_twice(alloc, sheet, call, tried)?;
    sheet.changes()
}

/// Does the call of this name twice on the value, if it is made.
pub fn made_twice<T: Tried, E: Drop>(
    alloc: Global,
    sheet: &mut Sheet,
    call: &str,
    made: Result<T, E>,
) -> Result<(), TryError>
where
    TryError: From<E>,
{
    tried_twice(alloc, sheet, call, made?)
}

/// The same of a call that may change the value.
pub fn made_changed_twice<T: Tried, E: Drop>(
    alloc: Global,
    sheet: &mut Sheet,
    call: &str,
    made: Result<T, E>,
) -> Result<(), TryError>
where
    TryError: From<E>,
{
    changed_twice(alloc, sheet, call, made?)
}
