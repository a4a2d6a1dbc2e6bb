// Why bytes aren't read as a report.

/// Why bytes aren't read as a report.
#[derive(Clone, Copy, Debug, PartialEq, Eq)]
pub enum ReportStop {
    /// They are no report's text. The longest front of them that begins some report's text has this length in bytes.
    Y1(u64),
    /// No memory was left.
    NoMemory,
}

// Where reading stopped: the bytes that are left there, or no memory was.
#[derive(Drop)]
pub enum ReadStop<'a> {
    At(&'a [u8]),
    NoMemory,
}
