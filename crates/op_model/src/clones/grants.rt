//! Equal copies of what a client asks for.
ghost use Rattle.std.specs.Prelude.{◌≡◌, IfOk, map, take, drop};

use crate::grant::{Asked, Finish, Interact, Item, Limits};
use crate::rows::Rows;
use crate::text::IntervalText;
use std::alloc::{AllocError, Global};

impl Finish {
    /// An equal value.
    pub fn clone(&self, alloc: Global) -> Result<Finish, AllocError>
        ensures { IfOk result (λ finish. finish ≡ self.now) }
    {
        Ok(Finish {
            uri: self.uri.clone(alloc)?,
            nonce: self.nonce.clone(alloc)?,
        })
    }
}

pub(crate) fn clone_interval(
    value: &Option<IntervalText>,
    alloc: Global,
) -> Result<Option<IntervalText>, AllocError>
    ensures { IfOk result (λ found. found ≡ value.now) }
{
    match value {
        Some(some) => Ok(Some(some.clone(alloc)?)),
        None => Ok(None),
    }
}

impl Limits {
    /// An equal value.
    pub fn clone(&self, alloc: Global) -> Result<Limits, AllocError>
        ensures { IfOk result (λ limits. limits ≡ self.now) }
    {
        Ok(Limits {
            receiver: self.receiver,
            cap: self.cap,
            interval: clone_interval(&self.interval, alloc)?,
        })
    }
}

fn clone_limits(value: &Option<Limits>, alloc: Global) -> Result<Option<Limits>, AllocError>
    ensures { IfOk result (λ found. found ≡ value.now) }
{
    match value {
        Some(some) => Ok(Some(some.clone(alloc)?)),
        None => Ok(None),
    }
}

impl Item {
    /// An equal value.
    pub fn clone(&self, alloc: Global) -> Result<Item, AllocError>
        ensures { IfOk result (λ item. item ≡ self.now) }
    {
        Ok(Item {
            kind: self.kind,
            actions: self.actions,
            identifier: self.identifier,
            limits: clone_limits(&self.limits, alloc)?,
        })
    }
}

fn clone_items(items: &[Item], alloc: Global) -> Result<Vec<Item>, AllocError>
    ensures { IfOk result (λ found. found.items ≡ items.now) }
{
    let mut copied = Vec::new(alloc);
    for item in items {
        copied.push(item.clone(alloc)?)?;
    }
    Ok(copied)
}

impl Rows<Item> {
    /// An equal list.
    pub fn clone(&self, alloc: Global) -> Result<Rows<Item>, AllocError>
        ensures { IfOk result (λ rows. rows ≡ self.now) }
    {
        Ok(Rows {
            kept: clone_items(&self.kept, alloc)?,
        })
    }
}

pub(crate) fn clone_finish(
    value: &Option<Finish>,
    alloc: Global,
) -> Result<Option<Finish>, AllocError>
    ensures { IfOk result (λ found. found ≡ value.now) }
{
    match value {
        Some(some) => Ok(Some(some.clone(alloc)?)),
        None => Ok(None),
    }
}

impl Interact {
    /// An equal value.
    pub fn clone(&self, alloc: Global) -> Result<Interact, AllocError>
        ensures { IfOk result (λ interact. interact ≡ self.now) }
    {
        match self {
            Interact::Missing => Ok(Interact::Missing),
            Interact::NoRedirect => Ok(Interact::NoRedirect),
            Interact::Redirect(value) => Ok(Interact::Redirect(clone_finish(value, alloc)?)),
        }
    }
}

impl Asked {
    /// An equal value.
    pub fn clone(&self, alloc: Global) -> Result<Asked, AllocError>
        ensures { IfOk result (λ asked. asked ≡ self.now) }
    {
        Ok(Asked {
            client: self.client.clone(alloc)?,
            items: self.items.clone(alloc)?,
            interact: self.interact.clone(alloc)?,
            strange: self.strange,
        })
    }
}
