//! Laws: what is printed is read again, and secrets differ.

ghost use Rattle.op_names.specs.Laws.{IdsReadBack, SecretsReadBack, SecretsDiffer, AddressesReadBack, RowsReadBack};

/// The text of an identifier is read as that identifier.
pub fn ids_read_back()
    ensures { IdsReadBack }
{}

/// The text of a secret is read as its letter, word and place.
pub fn secrets_read_back()
    ensures { SecretsReadBack }
{}

/// Secrets of one letter differ where their places differ.
pub fn secrets_differ()
    ensures { SecretsDiffer }
{}

/// The URL of an address is read as that address.
pub fn addresses_read_back()
    ensures { AddressesReadBack }
{}

/// The URL of a row is read as that row.
pub fn rows_read_back()
    ensures { RowsReadBack }
{}
