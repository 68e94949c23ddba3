//! What a terminal is told of a commit.
ghost use Rattle.std.specs.Prelude.{◌≡◌};
ghost use Rattle.std.specs.Arc.{arc_value};

use crate::entry::Entry;
use std::alloc::Global;
use std::marker::Model;
use std::sync::Arc;
use tables::Reply;
use tidword::TidWord;

/// What a terminal is told of a commit: its number, TID and reply. Only a commit makes one.
#[derive(Drop)]
pub struct Done {
    entry: Arc<Entry, Global>,
}

impl Model for Done {
    ghost use Rattle.std.specs.Arc.{arc_value};
    ghost use Rattle.book.specs.Done.{Done};

    ghost Value = { Done };

    ghost view = { λ d. let entry = arc_value d.entry in
        record { number = entry.number; tid = entry.tid; reply = entry.reply } };
}

impl Done {
    /// Of a commit.
    pub(crate) fn of(entry: Arc<Entry, Global>) -> Done
        ensures { let told = arc_value entry in
            result ≡ record { number = told.number; tid = told.tid; reply = told.reply } }
    {
        Done { entry }
    }

    /// The commit number: from 1, in a run with no past.
    pub fn number(&self) -> u32
        ensures { result ≡ self.now.number }
    {
        self.entry.number
    }

    /// The commit's TID, without status bits; the words of the versions that it stored have it.
    pub fn tid(&self) -> TidWord
        ensures { result ≡ self.now.tid }
    {
        self.entry.tid
    }

    /// The reply to the transaction.
    pub fn reply(&self) -> &Reply
        ensures { result.now ≡ self.now.reply }
    {
        &self.entry.reply
    }
}
