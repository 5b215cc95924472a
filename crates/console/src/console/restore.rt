// The guard of an admit.
ghost use Rattle.std.specs.Prelude.{◌≡◌};

use book::fill::Fill;
use book::tables::Book;

// Holds the fill of a book while a line is read into it, and puts it back when it is let go.
pub(crate) struct Restore<'a> {
    pub(crate) book: &'a mut Book,
    pub(crate) old: Fill,
}

impl Drop for Restore<'_> {
    fn drop(self)
        ensures { self.exit.0.now ≡ record self.entry.book.now { fill = self.entry.old } }
    {
        self.book.fill = self.old;
        let Restore { book: _, old: _ } = self;
    }
}

impl Restore<'_> {
    // Acceptance: the book stays as it is.
    pub(crate) fn keep(self)
        ensures { self.exit.0.now ≡ self.entry.book.now }
    {
        let Restore { book: _, old: _ } = self;
    }
}
