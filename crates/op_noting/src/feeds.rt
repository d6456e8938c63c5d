//! What an act that ends a payment makes of the feeds.
ghost use Rattle.std.specs.Prelude.{◌≡◌, ◌+◌, ◌<◌, ◌≤◌, if◌then◌else◌, Some, None};
ghost use Rattle.std.specs.Option.{option_to_list};
ghost use Rattle.op_noting.specs.Kept.{page_rows_of, with_pages};
ghost use Rattle.op_noting.specs.Laws.{PagesGoOn};

use op_amount::{Amount, Asset};
use op_model::{OutgoingRow, PageRow};
use op_pages::Feeds;

/// Notes a payment that ended, as its act leaves it, in the asset of its payer: one row where its metadata names a page
/// and something was sent. Where the feeds are those of a history, they are those of the longer one behind the act. Takes
/// no memory: there has to be room for the row.
pub fn note_ended(feeds: &mut Feeds, payment: &OutgoingRow, asset: Asset)
    requires { 0 < feeds.old.spare }
    ensures value { feeds.new ≡ with_pages feeds.old (page_rows_of payment.now asset) }
    ensures follows { PagesGoOn feeds.old feeds.new payment.now asset }
    ensures room { feeds.old.spare ≤ feeds.new.spare + 1 }
{
    if let Some(row) = page_row(payment, asset) {
        feeds.note(row);
    }
}

// The row of an ended payment on its page, if it has one and has sent something.
fn page_row(payment: &OutgoingRow, asset: Asset) -> Option<PageRow>
    ensures { option_to_list result ≡ page_rows_of payment.now asset }
{
    if payment.sent == 0 {
        return None;
    }
    let metadata = payment.metadata.as_ref()?;
    let page = metadata.page()?;
    Some(PageRow {
        grant: payment.grant,
        address: payment.terms.payer,
        page,
        sent: Amount {
            value: payment.sent,
            asset,
        },
        incoming: payment.terms.incoming,
        payee: payment.terms.payee,
    })
}
