// The check of a book: codes 1 to 8, then 9, and the bounds.
ghost use Rattle.bounds.specs.Bounds.{ChecksAs};

use crate::bounds::{Checked, bounds_of};
use book::parts::open_book;

pub fn check(book: &[u8]) -> Checked
    ensures { ChecksAs book.now result }
{
    open_book(book).and_then(bounds_of).into()
}
