//! The limits of the inputs that have none in a lower crate.

/// The most lines of a file of certificates.
pub const CERT_LINES_MAX: u64 = 1_000_000;

/// The most bytes of a certificate line, without its LF.
pub const CERT_LINE_LEN_MAX: usize = 1_048_576;

/// The most lines of a file of positions.
pub const POSITION_LINES_MAX: u64 = 1_000_000;

/// The most bytes of a position line, without its LF.
pub const POSITION_LINE_LEN_MAX: usize = 256;
