//! What each reply says.
ghost use Rattle.std.specs.Prelude.{◌≡◌, Some, IfOk};
ghost use Rattle.op_model.specs.Printed.{said as said_of_reply};
ghost use Rattle.op_reply.specs.Printable.{IsPrintable};
ghost use Rattle.op_reply.specs.Values.{data_of};
ghost use Rattle.op_reply.specs.Said.{said_of};

use crate::refusals::refusal_said;
use crate::said::Said;
use crate::{admin, grants, payments, redirect};
use op_model::{Reply, ReplyBody};
use std::alloc::{AllocError, Global};

/// What a reply says: one row for each form.
pub fn said(alloc: Global, reply: &Reply) -> Result<Said<'_>, AllocError>
    requires { IsPrintable reply.now }
    ensures { IfOk result (λ said. Some (said_of said) ≡ said_of_reply reply.now.origin reply.now.body) }
{
    let origin = &reply.origin;
    match &reply.body {
        ReplyBody::OriginSet { origin: set } => Ok(Said::ok(admin::origin(alloc, set)?)),
        ReplyBody::AssetAdded { asset, pieces } => {
            Ok(Said::created(admin::asset_added(alloc, asset, *pieces)?))
        }
        ReplyBody::AssetInspected {
            asset,
            pieces,
            pool,
            fees,
            total,
        } => { Ok(Said::ok(admin::asset_inspected(alloc, asset, *pieces, *pool, *fees, *total)?)) }
        ReplyBody::AddressAdded { number, address } => {
            Ok(Said::created(admin::address_added(alloc, origin, *number, address)?))
        }
        ReplyBody::AddressInspected {
            number,
            path,
            available,
            posted,
        } => {
            Ok(Said::ok(admin::address_inspected(
                alloc, origin, *number, path, *available, *posted,
            )?))
        }
        ReplyBody::Transferred {
            transfer,
            account,
            amount,
        } => { Ok(Said::created(admin::transferred(alloc, origin, transfer, account, amount)?)) }
        ReplyBody::RateSet {
            source,
            target,
            rate,
        } => { Ok(Said::ok(admin::rate(alloc, source, target, rate)?)) }
        ReplyBody::GrantDecided { redirect } => Ok(Said::ok(redirect::grant_decided(
            alloc, origin, redirect,
        )?)),
        ReplyBody::OutgoingInspected { number, payment } => {
            Ok(Said::ok(admin::outgoing_inspected(alloc, *number, payment)?))
        }
        ReplyBody::AddressRead { address } => {
            Ok(Said::ok(admin::address_read(alloc, origin, address)?))
        }
        ReplyBody::GrantIssued {
            number,
            items,
            access,
            continuation,
        } => {
            Ok(Said::ok(grants::issued(
                alloc,
                origin,
                *number,
                items.as_slice(),
                access,
                continuation,
            )?))
        }
        ReplyBody::GrantPending {
            number,
            nonce,
            continuation,
        } => { Ok(Said::ok(grants::pending(alloc, origin, *number, nonce, continuation)?)) }
        ReplyBody::GrantPolled {
            number,
            continuation,
        } => { Ok(Said::ok(grants::polled(alloc, origin, *number, continuation)?)) }
        ReplyBody::TokenRotated {
            number,
            items,
            access,
        } => { Ok(Said::ok(grants::rotated(alloc, origin, *number, items.as_slice(), access)?)) }
        ReplyBody::NoContent => Ok(Said::gone()),
        ReplyBody::IncomingMade { incoming } => {
            Ok(Said::created(payments::incoming(alloc, origin, incoming)?))
        }
        ReplyBody::IncomingRead { incoming } => {
            Ok(Said::ok(payments::incoming(alloc, origin, incoming)?))
        }
        ReplyBody::IncomingsListed {
            rows,
            has_previous,
            has_next,
        } => {
            Ok(Said::ok(payments::incomings_listed(
                alloc,
                origin,
                rows.as_slice(),
                *has_previous,
                *has_next,
            )?))
        }
        ReplyBody::QuoteMade { quote } => Ok(Said::created(payments::quote(alloc, origin, quote)?)),
        ReplyBody::QuoteRead { quote } => Ok(Said::ok(payments::quote(alloc, origin, quote)?)),
        ReplyBody::OutgoingMade { outgoing, spent } => {
            Ok(Said::created(payments::outgoing_made(alloc, origin, outgoing, spent)?))
        }
        ReplyBody::OutgoingRead { outgoing } => {
            Ok(Said::ok(payments::outgoing(alloc, origin, outgoing)?))
        }
        ReplyBody::OutgoingsListed {
            rows,
            has_previous,
            has_next,
        } => {
            Ok(Said::ok(payments::outgoings_listed(
                alloc,
                origin,
                rows.as_slice(),
                *has_previous,
                *has_next,
            )?))
        }
        ReplyBody::FeedRead { events } => Ok(Said::ok(payments::feed_read(
            alloc,
            origin,
            events.as_slice(),
        )?)),
        ReplyBody::Refused(refusal) => refusal_said(alloc, origin, refusal),
        ReplyBody::Stepped(_) | ReplyBody::Noted | ReplyBody::NotDue => unreachable!(),
    }
}
