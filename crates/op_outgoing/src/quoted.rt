//! A quote with its mark.

use op_model::QuoteRow;

/// A quote, and whether a payment was made from it.
#[derive(Clone, Copy)]
pub struct Quoted {
    pub row: QuoteRow,
    pub used: bool,
}
