//! Payments as they are made.
ghost use Rattle.std.specs.Prelude.{◌≡◌};
ghost use Rattle.op_outgoing.specs.Value.{fresh_row};

use op_model::{MetaText, OutgoingRow, PaymentState, Terms};
use op_time::Moment;

/// What a payment is made of.
#[derive(Drop)]
pub struct Made {
    pub grant: u64,
    /// `None` where it is made without a quote.
    pub quote: Option<u64>,
    pub made: Moment,
    /// It is funded before this moment, or fails.
    pub expiry: Moment,
    pub terms: Terms,
    pub metadata: Option<MetaText>,
}

/// The payment before its first step.
pub fn fresh(made: Made) -> OutgoingRow
    ensures { result ≡ fresh_row (record {
      grant = made.grant;
      quote = made.quote;
      made = made.made;
      expiry = made.expiry;
      terms = made.terms;
      metadata = made.metadata;
    }) }
{
    OutgoingRow {
        grant: made.grant,
        quote: made.quote,
        made: made.made,
        expiry: made.expiry,
        terms: made.terms,
        metadata: made.metadata,
        state: PaymentState::Funding,
        step: 0,
        sent: 0,
        fee: 0,
        delivered: 0,
        reason: 0,
    }
}
