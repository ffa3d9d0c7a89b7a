// The limits of a day file.

// The longest file that is read, in bytes.
pub const LONGEST_FILE: usize = 65_536;
