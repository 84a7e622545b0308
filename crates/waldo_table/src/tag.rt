use std::snapshot::Snapshot;
use table_schema::Widths;
use ticket_place::Book;

/// What never changes of what lies behind a server's lock. No value of it is made.
pub struct VaultTag {
    pub server: u8,
    pub widths: Widths,
    pub capacity: u32,
    pub book: Snapshot<Book>,
}
