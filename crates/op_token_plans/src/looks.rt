//! What an access looks at.

ghost use Rattle.std.specs.Prelude.{◌≡◌, ℕ, List, option_map};
ghost use Rattle.std.specs.declared.option.Option.{Option};
ghost use Rattle.std.specs.Option.{option_copied};
ghost use Rattle.op_granting.specs.Access.{AreLooksOf};
ghost use Rattle.op_granting.specs.Keeping.{IsGrantsOf};
ghost use Rattle.op_model.specs.Access.{is_same_client};
ghost use Rattle.op_model.specs.PaymentAnswers.{client_of_grant, looks_at_address, looks_at_row};
ghost use Rattle.op_model.specs.declared.act.Entry.{Entry};
ghost use Rattle.op_token_plans.specs.Looks.{pair_of};

use op_grant::Grants;
use op_granting::Looks;
use op_names::ClientText;

/// Where a row lies: the number of its address, and that of the grant that made it.
#[derive(Clone, Copy)]
pub struct Place {
    pub address: u32,
    pub grant: u64,
}

/// What a client needs of a grant's item: its type, the actions of which any one serves, and the action that reaches the rows
/// of all clients, or 0 where none does.
#[derive(Clone, Copy)]
pub struct Needed {
    pub kind: u8,
    pub need: u8,
    pub all: u8,
}

/// An access to make something, or to list rows, for an address.
pub fn looks_at_address(kind: u8, need: u8, address: Option<u32>) -> Looks
    ensures { (history : List Entry) (client : Option (List ℕ)) → AreLooksOf result history client (looks_at_address kind need address) }
{
    Looks {
        kind,
        need,
        all: 0,
        address,
        own: None,
        payment: None,
    }
}

/// An access to a row, where it is there.
pub fn looks_at_row(
    grants: &Grants,
    client: Option<&ClientText>,
    needed: Needed,
    row: Option<Place>,
) -> Looks
    ensures { (history : List Entry) → IsGrantsOf history grants.now
        → AreLooksOf result history (option_copied client.entry) (looks_at_row history needed.kind needed.need needed.all (option_map pair_of row)) }
{
    let Needed { kind, need, all } = needed;
    match row {
        Some(place) => Looks {
            kind,
            need,
            all,
            address: Some(place.address),
            own: is_own(grants, client, place.grant),
            payment: None,
        },
        None => Looks {
            kind,
            need,
            all,
            address: None,
            own: None,
            payment: None,
        },
    }
}

// Whether a grant, where it is there, is one of the client's.
fn is_own(grants: &Grants, client: Option<&ClientText>, grant: u64) -> Option<bool>
    ensures { (history : List Entry) → IsGrantsOf history grants.now
        → result ≡ option_map (is_same_client (option_copied client.entry)) (client_of_grant history grant) }
{
    match grants.row(grant) {
        Some(row) => Some(is_same_client(client, &row.client)),
        None => None,
    }
}

fn is_same_client(asking: Option<&ClientText>, client: &ClientText) -> bool
    ensures { result ≡ is_same_client (option_copied asking.entry) client.now }
{
    match asking {
        Some(asking) => asking.bytes() == client.bytes(),
        None => false,
    }
}
