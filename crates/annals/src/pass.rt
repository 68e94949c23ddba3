//! A pass of annals.

use crate::claims::{Dated, Known};
use atomic_table::Seat;
use std::marker::Model;

/// A claim on the history of annals, which stays true as that grows. It has no bytes.
#[derive(Drop)]
pub struct Pass<S: Dated> {
    pub(crate) seat: Seat<S, Known<S>>,
}

impl<S: Dated> Model for Pass<S> {
    ghost use Rattle.std.specs.Prelude.{◌≡◌, []};
    ghost use Rattle.annals.specs.Passes.{PassView};

    ghost Value = { PassView S };

    ghost view = { λ p. record { table = p.seat.table_id; claim = p.seat.me.0.own } };

    ghost invariant = { λ p. p.seat.me.1 ≡ [] };
}
