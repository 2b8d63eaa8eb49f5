//! The name servers of a name and of the names above it.

ghost use Rattle.std.specs.Prelude.{◌≡◌, ◌∷◌, [], ◌++◌, length, IfOk, OnOk};
ghost use Rattle.std.specs.List.{flat_map};
ghost use Rattle.std.specs.Option.{option_to_list};
ghost use Rattle.upstream_link.specs.Servers as form;

use crate::aliases::name_in;
use crate::facts::Facts;
use crate::names::Names;
use dns_message::RecordRefs;
use dns_name::Name;
use dns_record::{RecordRef, rtype};
use std::alloc::{AllocError, Global};

/// The name and the names above it that have at least two labels, from two labels upward: at most 127 names. Their NS
/// questions are asked in this order.
pub fn ancestors(alloc: Global, name: &Name) -> Result<Names, AllocError>
    ensures { IfOk result (λ names. names ≡ form.ancestors name.now) }
{
    let mut names = longest_first(alloc, name)?;
    names.reverse();
    Ok(names)
}

// The name and the names above it that have at least two labels, the longest first.
fn longest_first(alloc: Global, name: &Name) -> Result<Names, AllocError>
    ensures { IfOk result (λ names. names ≡ form.longest_first name.now) }
{
    let mut names = Names::new(alloc);
    let mut current = name.clone()?;
    for _ in 1..name.label_count() {
        let Some(parent) = current.parent(alloc)? else {
            return Ok(names);
        };
        names.push(current)?;
        current = parent;
    }
    Ok(names)
}

// Puts the servers that the NS records of this owner name behind the others.
pub(crate) fn push_servers(
    alloc: Global,
    owner: &Name,
    records: RecordRefs<'_>,
    names: &mut Names,
) -> Result<(), AllocError>
    ensures { OnOk result (names.new ≡ names.old ++ form.servers_in owner.now records.entry) }
{
    for rr in records {
        push_server(alloc, owner, rr, names)?;
    }
    Ok(())
}

// Puts the server that the record names, if it is an NS record of this owner, behind the others.
fn push_server(
    alloc: Global,
    owner: &Name,
    rr: RecordRef<'_>,
    names: &mut Names,
) -> Result<(), AllocError>
    ensures { OnOk result
        (names.new ≡ names.old ++ option_to_list (form.server_in owner.now rr.entry)) }
{
    if let Some(name) = server_in(alloc, owner, rr)? {
        names.push(name)?;
    }
    Ok(())
}

// The name of a server, in lower case, if the record is an NS record of this owner.
fn server_in(alloc: Global, owner: &Name, rr: RecordRef<'_>) -> Result<Option<Name>, AllocError>
    ensures { IfOk result (λ name. name ≡ form.server_in owner.now rr.entry) }
{
    if rr.rtype() != rtype::NS || !rr.owner().is_same(owner) {
        return Ok(None);
    }
    match name_in(alloc, rr)? {
        None => Ok(None),
        Some(name) => Ok(Some(name.lower(alloc)?)),
    }
}
