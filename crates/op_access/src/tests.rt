//! Which proofs pass, and which rule denies. The proofs were made by Python's `hmac` and `hashlib`.
use crate::{AccessFacts, Decision, HmacVerifier, SpendFault, allowed};
use op_ports::Verifier;
use std::process::Abort;

/// The bytes 0 to 31.
const MASTER: [u8; 32] = [
    0, 1, 2, 3, 4, 5, 6, 7, 8, 9, 10, 11, 12, 13, 14, 15, 16, 17, 18, 19, 20, 21, 22, 23, 24, 25,
    26, 27, 28, 29, 30, 31,
];

/// What is asked, and its proof.
#[derive(Clone, Copy)]
struct Signed {
    client: &'static [u8],
    method: &'static [u8],
    target: &'static [u8],
    body: &'static [u8],
    authorization: &'static [u8],
    proof: &'static [u8],
}

/// A list of a client's rows is asked for.
const LISTED: Signed = Signed {
    client: b"https://shop.example/app",
    method: b"GET",
    target: b"/incoming-payments?wallet-address=https://wallet.example/alice&first=2",
    body: b"",
    authorization: b"GNAP token",
    proof: b"e31dd7b56a0caa36c481ae083cc9de72138fe2c2369c18d2d25a03895a806d31",
};

/// A row is made.
const MADE: Signed = Signed {
    client: b"https://shop.example/app",
    method: b"POST",
    target: b"/incoming-payments",
    body: b"{\"walletAddress\":\"https://wallet.example/alice\"}",
    authorization: b"GNAP token",
    proof: b"2a47ac002b5b29b774137faa58db69a04009c19f3edf38689de4e7753d6d3a91",
};

/// A grant is asked for, without a token.
const ASKED: Signed = Signed {
    client: b"https://shop.example/app",
    method: b"POST",
    target: b"/grant",
    body: b"{}",
    authorization: b"",
    proof: b"424bd825e63df839c17444e3975b9b6b9533a30a919b72fff5eb37f8bf339199",
};

fn passes(verifier: &impl Verifier, signed: Signed) -> bool {
    verifier.verify(
        signed.client,
        signed.method,
        signed.target,
        signed.body,
        signed.authorization,
        signed.proof,
    )
}

fn expect_refused(rt: &impl Abort, signed: Signed) {
    assert!(rt; !passes(&HmacVerifier::new(MASTER), signed));
}

#[test]
fn proofs_pass(rt: HostRuntime) {
    let verifier = HmacVerifier::new(MASTER);
    for signed in [LISTED, MADE, ASKED] {
        assert!(rt; passes(&verifier, signed));
    }
}

#[test]
fn digits_pass_in_either_case(rt: HostRuntime) {
    let verifier = HmacVerifier::new(MASTER);
    let upper = b"424BD825E63DF839C17444E3975B9B6B9533A30A919B72FFF5EB37F8BF339199";
    let mixed = b"424bd825E63df839c17444e3975B9b6b9533a30a919b72fff5eb37f8bf339199";
    assert!(rt;
        passes(
            &verifier,
            Signed {
                proof: upper,
                ..ASKED
            }
        )
    );
    assert!(rt;
        passes(
            &verifier,
            Signed {
                proof: mixed,
                ..ASKED
            }
        )
    );
}

#[test]
fn another_master_refuses(rt: HostRuntime) {
    let proof = b"1abcfcbc972f49d159ee655a1ecb79c2c11749ac4b513e657afb204f042a9a81";
    let zeros = HmacVerifier::new([0; 32]);
    assert!(rt; passes(&zeros, Signed { proof, ..ASKED }) && !passes(&zeros, ASKED));
    expect_refused(&rt, Signed { proof, ..ASKED });
}

#[test]
fn each_part_of_the_request_counts(rt: HostRuntime) {
    expect_refused(
        &rt,
        Signed {
            client: b"https://shop.example/other",
            ..ASKED
        },
    );
    expect_refused(
        &rt,
        Signed {
            method: b"PUT",
            ..ASKED
        },
    );
    expect_refused(
        &rt,
        Signed {
            target: b"/incoming-payments",
            ..LISTED
        },
    );
    expect_refused(
        &rt,
        Signed {
            body: b"{ }",
            ..ASKED
        },
    );
    expect_refused(&rt, Signed { body: b"", ..MADE });
    expect_refused(
        &rt,
        Signed {
            authorization: b"GNAP other",
            ..MADE
        },
    );
    expect_refused(
        &rt,
        Signed {
            authorization: b"",
            ..MADE
        },
    );
}

#[test]
fn each_digit_counts(rt: HostRuntime) {
    let first = b"524bd825e63df839c17444e3975b9b6b9533a30a919b72fff5eb37f8bf339199";
    let last = b"424bd825e63df839c17444e3975b9b6b9533a30a919b72fff5eb37f8bf33919a";
    let shorter = b"424bd825e63df839c17444e3975b9b6b9533a30a919b72fff5eb37f8bf3391";
    let odd = b"424bd825e63df839c17444e3975b9b6b9533a30a919b72fff5eb37f8bf33919";
    let longer = b"424bd825e63df839c17444e3975b9b6b9533a30a919b72fff5eb37f8bf33919900";
    let no_digits = b"424bd825e63df839c17444e3975b9b6b9533a30a919b72fff5eb37f8bf3391 9";
    let proofs: [&[u8]; 7] = [first, last, shorter, odd, longer, no_digits, b""];
    for proof in proofs {
        expect_refused(&rt, Signed { proof, ..ASKED });
    }
}

/// The value of a field `signature` (RFC 9421, section 4.2), which is another proof.
#[test]
fn message_signatures_are_no_proof(rt: HostRuntime) {
    expect_refused(
        &rt,
        Signed {
            proof: b"sig1=:QmFzZTY0:",
            ..ASKED
        },
    );
}

/// An outgoing payment is made from a quote of the client's own, from the address of its item.
const PAYS: AccessFacts = AccessFacts {
    same_client: true,
    actions: Some(1),
    need: 1,
    all: 0,
    identifier: Some(1),
    address: Some(1),
    own: Some(true),
    spend: None,
};

/// Another client's row is read with `read-all`: the actions are read 4 and read-all 8.
const READS_ALL: AccessFacts = AccessFacts {
    same_client: true,
    actions: Some(8),
    need: 12,
    all: 8,
    identifier: None,
    address: Some(1),
    own: Some(false),
    spend: None,
};

#[test]
fn passes_where_no_rule_fails(rt: HostRuntime) {
    let read = AccessFacts {
        actions: Some(4),
        own: Some(true),
        ..READS_ALL
    };
    let elsewhere = AccessFacts {
        address: None,
        own: None,
        ..PAYS
    };
    let anywhere = AccessFacts {
        identifier: None,
        address: Some(2),
        ..PAYS
    };
    for facts in [PAYS, READS_ALL, read, elsewhere, anywhere] {
        assert_eq!(rt; allowed(&facts), Decision::Pass);
    }
}

#[test]
fn each_rule_can_be_the_first_that_fails(rt: HostRuntime) {
    // The spending breaks each of the later rules in turn, and the other facts are those that fail.
    let nothing = AccessFacts {
        same_client: false,
        actions: None,
        need: 1,
        all: 0,
        identifier: Some(1),
        address: Some(2),
        own: Some(false),
        spend: Some(SpendFault::OverLimit),
    };
    let item = AccessFacts {
        same_client: true,
        ..nothing
    };
    let action = AccessFacts {
        actions: Some(2),
        ..item
    };
    let address = AccessFacts {
        actions: Some(1),
        ..action
    };
    let owner = AccessFacts {
        address: Some(1),
        ..address
    };
    let cases = [
        (nothing, 1),
        (item, 2),
        (action, 3),
        (address, 4),
        (owner, 5),
        (
            AccessFacts {
                spend: Some(SpendFault::LimitReceiver),
                ..PAYS
            },
            6,
        ),
        (
            AccessFacts {
                spend: Some(SpendFault::LimitAsset),
                ..PAYS
            },
            7,
        ),
        (
            AccessFacts {
                spend: Some(SpendFault::OutsideInterval),
                ..PAYS
            },
            8,
        ),
        (
            AccessFacts {
                spend: Some(SpendFault::OverLimit),
                ..PAYS
            },
            9,
        ),
    ];
    for (facts, rule) in cases {
        assert_eq!(rt; allowed(&facts), Decision::Denied(rule));
    }
}

#[test]
fn read_reaches_own_rows_alone(rt: HostRuntime) {
    let read = AccessFacts {
        actions: Some(4),
        ..READS_ALL
    };
    assert_eq!(rt; allowed(&read), Decision::Denied(5));
    let both = AccessFacts {
        actions: Some(12),
        ..READS_ALL
    };
    assert_eq!(rt; allowed(&both), Decision::Pass);
}
