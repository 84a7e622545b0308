use table_schema::Widths;

/// What never changes of a log. No value of it is made.
pub struct LogTag {
    pub server: u8,
    pub widths: Widths,
    pub capacity: u32,
}
