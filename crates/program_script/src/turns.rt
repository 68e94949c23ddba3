//! The laws of the turns of a script.
ghost use Rattle.std.specs.Prelude.{◌≡◌, ℕ, List};
ghost use Rattle.tables.specs.Database.{Database};
ghost use Rattle.program_script_text.specs.declared.answer.Answer.{Answer};
ghost use Rattle.conditions.specs.declared.report.Report.{Report};
ghost use Rattle.book.specs.Done.{Done};
ghost use Rattle.program_script.specs.Turns.{State, AreTurns, commits_of};
ghost use Rattle.program_script.specs.Written.{IsWhole};

/// The lines of a script determine their answers and the state after them: two runs of the same lines from
/// one state, at one number, are the same.
pub fn lines_determine_turns()
    ensures { (s : State) (n : ℕ) (lines : List (List ℕ)) (one other : List Answer) (last end : State)
        → AreTurns s n lines one last → AreTurns s n lines other end → (one ≡ other)
        × (last ≡ end) }
{}

/// The bytes of a script determine its text, its report and its commits, each with its number and its reply: two
/// whole scripts of the same bytes from the same tables are the same.
pub fn bytes_determine_text()
    ensures { (tables : Database) (bytes text other : List ℕ) (report found : Report) (dones told : List Done)
        → IsWhole tables bytes text report dones → IsWhole tables bytes other found told
        → (text ≡ other) × (report ≡ found) × (commits_of dones ≡ commits_of told) }
{}
