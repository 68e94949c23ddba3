//! Who keeps annals.

use crate::claims::{Dated, Known};
use atomic_table::Seat;
use std::marker::Model;

/// The pass of who keeps the annals, and so knows all of their history. There is one. It has no bytes.
#[derive(Drop)]
pub struct Annalist<S: Dated> {
    pub(crate) seat: Seat<S, Known<S>>,
}

impl<S: Dated> Model for Annalist<S> {
    ghost use Rattle.std.specs.Prelude.{◌≡◌, true, []};
    ghost use Rattle.annals.specs.Passes.{AnnalistView};

    ghost Value = { AnnalistView S };

    ghost view = { λ a. record {
      annals = record { table = a.seat.table_id; base = a.seat.me.0.base };
      history = a.seat.me.0.own.front;
      mark = a.seat.me.0.own.mark;
    } };

    ghost invariant = { λ a. (a.seat.me.0.keeps ≡ true) × (a.seat.me.0.own.has ≡ []) × (a.seat.me.1 ≡ []) };
}
