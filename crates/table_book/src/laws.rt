//! What is written and what is read, taken together: a law of the contracts in this crate.
#![tactic(auto)]

ghost use Rattle.table_book.specs.ReadBack.{BooksReadBack};

/// The text of a book that is well formed is read back as that book: it is the text of no other, and it is not refused.
pub fn books_read_back()
    ensures same { BooksReadBack }
{}
