//! How far a history may have taken tables.
ghost use Rattle.std.specs.Prelude.{ℕ, ◌+◌, ◌≤◌, List, length};
ghost use Rattle.tables.specs.Database.{Database};
ghost use Rattle.tables.specs.declared.limits.TheConstants.{MAX_COMMITS};
ghost use Rattle.book.specs.Base.{AreReached};
ghost use Rattle.book.specs.History.{Replays, replay};
ghost use Rattle.book.specs.declared.entry.Entry.{Entry as HistoryEntry};

/// A history whose entries are each done in their turn, behind tables that so many past commits have made, leaves
/// tables that are well-formed, consistent and in reach of all commits where those are so of theirs. So no replay of a
/// history is refused for what it has made of a first population. It does nothing: its contract is the law.
pub fn histories_stay_in_reach()
    ensures { (past : ℕ) (t0 : Database) (history : List HistoryEntry) → past + length history ≤ MAX_COMMITS
        → AreReached past t0 → Replays (past + 1) t0 history
        → AreReached (past + length history) (replay t0 history) }
{}
