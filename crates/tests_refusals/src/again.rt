//! Calls that are made once more.

/// How many calls were made once more, since there was no memory for them, and how many of these had changed something
/// before.
#[derive(Clone, Copy, Default)]
pub(crate) struct Again {
    pub(crate) calls: u32,
    pub(crate) changes: u32,
}

impl Again {
    /// A call was refused, and is to be made once more. All is as it was before it, or isn't.
    pub(crate) fn note(&mut self, is_as_before: bool) {
        self.calls = self.calls.saturating_add(1);
        if !is_as_before {
            self.changes = self.changes.saturating_add(1);
        }
    }
}
