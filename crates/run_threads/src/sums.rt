//! The end of terminals' work.
ghost use Rattle.std.specs.Prelude.{◌≡◌, ◌≤◌, [], length, map, vec_capacity};
ghost use Rattle.std.specs.List.{sum_by};
ghost use Rattle.book.specs.Share.{parts_of, share_commits};
ghost use Rattle.run_threads.specs.Tally.{commits_in};

use crate::tally::Tally;
use crate::worker::TerminalThread;
use book::{Engine, Run, Share};
use terminals::Gate;
use terminals_deck::Deck;

/// Ends terminals: each acknowledges what is durable, and what came of its inputs, its share and its deck are gathered,
/// in their order. There is room for all three. Answers how many replies were released.
pub(crate) fn gathered<K: Run, G: Gate + Drop>(
    engine: &Engine<K>,
    workers: Vec<TerminalThread<K, G>>,
    tallies: &mut Vec<Tally>,
    shares: &mut Vec<Share<K>>,
    decks: &mut Vec<Deck>,
) -> u64
    requires none { (tallies.old.items ≡ []) × (shares.old.items ≡ []) × (decks.old.items ≡ []) }
    requires tallies { length workers.items ≤ vec_capacity tallies.old }
    requires shares { length workers.items ≤ vec_capacity shares.old }
    requires decks { length workers.items ≤ vec_capacity decks.old }
    ensures tallies { tallies.new.items ≡ map (λ worker. worker.tally) workers.items }
    ensures decks { decks.new.items ≡ map (λ worker. worker.terminal.deck) workers.items }
    ensures parts { sum_by parts_of shares.new.items ≡ length workers.items }
    ensures commits { sum_by share_commits shares.new.items ≡ sum_by commits_in tallies.new.items }
{
    let mut released = 0u64;
    for worker in workers {
        let (tally, acknowledged, share, deck) = worker.end(engine);
        released = released.saturating_add(acknowledged);
        tallies.push_reserved(tally);
        shares.push_reserved(share);
        decks.push_reserved(deck);
    }
    released
}
