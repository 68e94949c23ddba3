//! The rule of annals, and what each step tells.

use crate::claims::{Dated, Known};
use atomic_table::{Join, Play, Split, TableRule};

/// The rule: there is a history of which each claim is so. What the word is means nothing.
pub struct AnnalsRule;

impl<S: Dated> TableRule<S, Known<S>, u64> for AnnalsRule {
    ghost use Rattle.annals.specs.Rule.{AreAnnals, first_known};

    ghost holds = { λ base s. AreAnnals S.date base s.views };

    ghost first = { first_known };
}

/// The keeper adds an entry, which a step names, in the epoch behind the mark that the step finds.
pub(crate) struct Adds;

impl<S: Dated> Play<S, Known<S>> for Adds {
    ghost use Rattle.annals.specs.Plays.{Adding};

    ghost then = { λ s v _ w. Adding s.said s.first v w };
}

/// The keeper says that nothing more comes of epochs up to a mark.
pub(crate) struct Marks;

impl<S: Dated> Play<S, Known<S>> for Marks {
    ghost use Rattle.annals.specs.Plays.{Marking};

    ghost then = { λ s v _ w. Marking s.first v w };
}

/// A new pass claims what is so as annals begin.
pub(crate) struct Begins;

impl<S: Dated> Play<S, Known<S>> for Begins {
    ghost use Rattle.std.specs.Prelude.{◌≡◌};
    ghost use Rattle.annals.specs.Rule.{begun_pass};

    ghost then = { λ _ v _ w. w.0 ≡ begun_pass v.0.base };
}

/// A pass compares its claim with the one that it has heard.
pub(crate) struct Compares;

impl<S: Dated> Play<S, Known<S>> for Compares {
    ghost use Rattle.annals.specs.Plays.{Comparing};

    ghost then = { λ _ v _ w. Comparing S.date v w };
}

/// A pass with the same claim.
pub(crate) struct Shares;

impl<S> Split<Known<S>> for Shares {
    ghost use Rattle.annals.specs.Rule.{shared_pass};

    ghost left = { λ v. v };

    ghost right = { shared_pass };
}

/// A pass which claims that the last entry is there.
pub(crate) struct Cites;

impl<S> Split<Known<S>> for Cites {
    ghost use Rattle.annals.specs.Rule.{cited_pass};

    ghost left = { λ v. v };

    ghost right = { cited_pass };
}

/// What another pass says is there is taken in.
pub(crate) struct Gathers;

impl<S> Join<Known<S>> for Gathers {
    ghost use Rattle.annals.specs.Rule.{gathered, spent_pass};

    ghost both = { gathered };

    ghost spent = { spent_pass };
}

/// What another pass claims is heard.
pub(crate) struct Hears;

impl<S> Join<Known<S>> for Hears {
    ghost use Rattle.annals.specs.Rule.{hearing, spent_pass};

    ghost both = { hearing };

    ghost spent = { spent_pass };
}
