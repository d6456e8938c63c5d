//! What a grant's item is for: its type, and its actions as a sum of bits (Open Payments, `access`).

/// Items for incoming payments.
pub const INCOMING_PAYMENT: u8 = 1;

/// Items for quotes.
pub const QUOTE: u8 = 2;

/// Items for outgoing payments.
pub const OUTGOING_PAYMENT: u8 = 3;

/// To make a row.
pub const CREATE: u8 = 1;

/// To complete an incoming payment.
pub const COMPLETE: u8 = 2;

/// To read a row that the client's own grants made.
pub const READ: u8 = 4;

/// To read any row.
pub const READ_ALL: u8 = 8;
