//! What a thread enters with.
use crate::grows::Grows;
use crate::rule::View;
use atomic_table::Seat;

/// The right to enter one turnstile under one number. It takes no bytes and is not dropped:
/// `Turnstile::join` takes it back, and `Turnstile::close` takes the first one.
pub struct Pass<W: Grows> {
    pub(crate) seat: Seat<Option<W>, View<W::Opening, W::Entry>>,
}
