//! The payments of which the events of an act tell.
ghost use Rattle.std.specs.Prelude.{◌≡◌};
ghost use Rattle.op_noting.specs.Touched.{amount_in as amount_of, incoming_with, outgoing_with, filled_with};

use op_amount::{Amount, Asset, TOP};
use op_model::{IncomingRow, OutgoingRow};

/// An incoming payment as an act leaves it.
#[derive(Clone, Copy)]
pub struct IncomingNow {
    pub number: u64,
    /// The number of its wallet address.
    pub address: u32,
    /// What it has received, in the asset of its address.
    pub received: Amount,
}

/// An outgoing payment as an act leaves it. The receive is in the asset of the payee, the others in that of the payer.
#[derive(Clone, Copy)]
pub struct OutgoingNow {
    pub number: u64,
    /// The number of the wallet address that pays.
    pub payer: u32,
    pub debit: Amount,
    pub receive: Amount,
    pub sent: Amount,
}

/// The payments of which the events of an act tell, as the act leaves them.
#[derive(Clone, Copy)]
pub struct Touched {
    /// The incoming payment that the act makes, completes or expires, or that its piece brings to the bound.
    pub incoming: Option<IncomingNow>,
    /// The outgoing payment that the act makes, completes or fails.
    pub outgoing: Option<OutgoingNow>,
}

fn amount_in(asset: &Asset, value: u64) -> Amount
    ensures { result ≡ amount_of asset.now value }
{
    Amount {
        value,
        asset: *asset,
    }
}

impl IncomingNow {
    /// An incoming payment that has received so much, in the asset of its address.
    pub fn of(number: u64, row: &IncomingRow, received: u64, asset: Asset) -> IncomingNow
        ensures { result ≡ incoming_with number row.now received asset }
    {
        IncomingNow {
            number,
            address: row.address,
            received: amount_in(&asset, received),
        }
    }

    /// The incoming payment of a piece, where that brought it to its bound: it had received less before the piece, and has
    /// received that much or more behind it.
    pub fn filled(
        number: u64,
        row: &IncomingRow,
        before: u64,
        received: u64,
        asset: Asset,
    ) -> Option<IncomingNow>
        ensures { result ≡ filled_with number row.now before received asset }
    {
        let bound = row.amount.unwrap_or(TOP);
        if before < bound && bound <= received {
            return Some(IncomingNow::of(number, row, received, asset));
        }
        None
    }
}

impl OutgoingNow {
    /// An outgoing payment as its row has it, from an address of one asset to one of another.
    pub fn of(number: u64, row: &OutgoingRow, payer: Asset, payee: Asset) -> OutgoingNow
        ensures { result ≡ outgoing_with number row.now payer payee }
    {
        OutgoingNow {
            number,
            payer: row.terms.payer,
            debit: amount_in(&payer, row.terms.debit),
            receive: amount_in(&payee, row.terms.receive),
            sent: amount_in(&payer, row.sent),
        }
    }
}
