//! The book as a machine of the commit protocol shows it.
ghost use Rattle.std.specs.Prelude.{ℕ};
ghost use Rattle.commit.specs.Machine.{Machine};
ghost use Rattle.readset.specs.Reads.{ReadSetView};
ghost use Rattle.book.specs.Book.{BookView};
ghost use Rattle.book.specs.Shows.{Mirrors};

/// Some machine shows the book to a terminal, whatever is in the book, what the terminal has read, and the number of
/// its worker. So what `Book::commit` says of such machines is never said of none.
pub fn every_book_is_shown()
    ensures { (book : BookView) (terminal epoch : ℕ) (read : ReadSetView) (w : ℕ)
        → ((m : Machine) × Mirrors book terminal epoch read m w) }
{}
