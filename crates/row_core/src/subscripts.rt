//! The places of the subscripts among the fields of `Index`, by the letters of the long code.

pub const R: u8 = 0;

pub const RR: u8 = 1;

pub const L: u8 = 2;

pub const T: u8 = 3;

pub const F: u8 = 4;

pub const E: u8 = 5;

pub const M: u8 = 6;

pub const Y: u8 = 7;
