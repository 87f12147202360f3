//! The numbers of the sets of the OSeMOSYS long code.

/// The number of REGION.
pub const REGION: u8 = 1;

/// The number of TECHNOLOGY.
pub const TECHNOLOGY: u8 = 2;

/// The number of FUEL.
pub const FUEL: u8 = 3;

/// The number of EMISSION.
pub const EMISSION: u8 = 4;

/// The number of MODE_OF_OPERATION.
pub const MODE_OF_OPERATION: u8 = 5;

/// The number of TIMESLICE.
pub const TIMESLICE: u8 = 6;

/// The number of YEAR.
pub const YEAR: u8 = 7;

/// The number of STORAGE.
pub const STORAGE: u8 = 8;

/// The number of SEASON.
pub const SEASON: u8 = 9;

/// The number of DAYTYPE.
pub const DAYTYPE: u8 = 10;

/// The number of DAILYTIMEBRACKET.
pub const DAILYTIMEBRACKET: u8 = 11;

/// How many sets there are.
pub const SET_COUNT: usize = 11;
