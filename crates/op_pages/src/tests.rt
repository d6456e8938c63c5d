//! The feed of a page.

use crate::Feeds;
use op_amount::{Amount, Asset, AssetCode, print_scaled};
use op_model::{PageRow, PageText};
use std::process::Abort;
use std::test::Fail;

/// An ended payment from an address, with so many cents sent.
fn ended(address: u32, page: &str, cents: u64, incoming: u64) -> Option<PageRow> {
    let code = AssetCode::read("USD")?;
    Some(PageRow {
        grant: 3,
        address,
        page: PageText::from_bytes(page.as_bytes())?,
        sent: Amount {
            value: cents,
            asset: Asset { code, scale: 2 },
        },
        incoming,
        payee: 2,
    })
}

fn expect_row(rt: &impl Abort, row: &PageRow, sent: &str, incoming: u64, text: &[u8]) {
    assert_eq!(rt; row.incoming, incoming, "{sent}");
    assert!(rt; row.sent.asset.code.as_str() == "USD", "{sent}");
    assert!(rt; text == sent.as_bytes(), "{sent}");
}

#[test]
fn page_feed(rt: HostRuntime) -> Result<(), Fail> {
    let mut feeds = Feeds::new(rt.alloc());
    for (address, page, cents, incoming) in [
        (1, "news", 1000, 1),
        (2, "news", 7, 2),
        (1, "new", 8, 3),
        (1, "news", 45, 4),
    ] {
        feeds.reserve(1)?;
        feeds.note(ended(address, page, cents, incoming).ok_or("no page")?);
    }
    let rows = feeds.feed(rt.alloc(), 1, b"news")?;
    assert_eq!(rt; rows.len(), 2);
    for (row, sent, incoming) in [(&rows[0], "10.00", 1), (&rows[1], "0.45", 4)] {
        let mut text = Vec::new(rt.alloc());
        print_scaled(rt.alloc(), row.sent.value, row.sent.asset.scale, &mut text)?;
        expect_row(&rt, row, sent, incoming, &text);
    }
    assert_eq!(rt; feeds.feed(rt.alloc(), 3, b"news")?.len(), 0);
    Ok(())
}
