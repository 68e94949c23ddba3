//! Lists of notes by record.
ghost use Rattle.std.specs.Prelude.{◌≡◌};
ghost use Rattle.commit.specs.Machine.{note_at, without};

/// What the notes have of a record: the first note. Costs a pass over them.
pub(crate) fn held<X: Copy>(notes: &[(u32, X)], number: u32) -> Option<X>
    ensures { result ≡ note_at notes.now number }
{
    for note in notes {
        if note.0 == number {
            return Some(note.1);
        }
    }
    None
}

/// Takes the notes of a record away. Costs a pass over them.
pub(crate) fn forget<X: Copy>(notes: &mut Vec<(u32, X)>, number: u32)
    ensures { notes.new.items ≡ without notes.old.items number }
{
    notes.retain(move |note| note.0 != number);
}
