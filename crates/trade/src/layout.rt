// A flow book, as bytes: rows, records, steps and a trailer.
#[derive(Clone, Copy)]
pub struct Book;

impl Book {
    // The trailer: three distances, two counts and the mark.
    pub const TRAILER_BYTES: usize = 10;
    // The two bytes that a book ends with.
    pub const MARK: [u8; 2] = *b"FB";
}
