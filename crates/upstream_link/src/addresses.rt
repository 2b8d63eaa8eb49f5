//! The addresses of servers.

ghost use Rattle.std.specs.Prelude.{◌≡◌, ◌++◌, All, map, OnOk};
ghost use Rattle.std.specs.Option.{option_to_list};
ghost use Rattle.upstream_link.specs.Chain.{has_name};
ghost use Rattle.upstream_link.specs.Entries as form;
ghost use Rattle.upstream_link.specs.Known.{AreInOrder};
ghost use Rattle.upstream_link.specs.Servers.{address_of, addresses_in};

use crate::fact::Fact;
use crate::known::Known;
use crate::names::Names;
use dns_message::{Question, RecordRefs};
use dns_name::Name;
use dns_record::{RecordRef, class, rtype};
use ip_prefix::Addr;
use std::alloc::AllocError;

// Whether the question is for addresses.
fn asks_addresses(question: &Question) -> bool
    ensures { result ≡ form.asks_addresses question.now }
{
    (question.qtype == rtype::A || question.qtype == rtype::AAAA) && question.qclass == class::IN
}

// Whether the name is in the list, which is in order. It looks at as many names as the list's length has binary digits.
fn is_in(list: &Names, name: &Name) -> bool
    ensures { AreInOrder list.now → result ≡ has_name list.now name.now }
{
    list.as_slice()
        .binary_search_by(|other| other.canonical_cmp(name))
        .is_ok()
}

// Whether the name is in one of the lists, each of which is in order.
fn is_listed(lists: &[&Names], name: &Name) -> bool
    ensures { All AreInOrder (map (λ list. list.now) lists.now)
        → result ≡ form.is_listed (map (λ list. list.now) lists.now) name.now }
{
    for list in lists {
        if is_in(list, name) {
            return true;
        }
    }
    false
}

/// Puts the addresses that a fact tells of its name, if the name is in one of the lists, behind the others. The lists are
/// in order.
pub(crate) fn push_known(
    known: &Known,
    lists: &[&Names],
    all: &mut Vec<Addr>,
) -> Result<(), AllocError>
    ensures { OnOk result (All AreInOrder (map (λ list. list.now) lists.now) →
        all.new.items ≡ all.old.items
        ++ form.addresses_by (map (λ list. list.now) lists.now) known.now) }
{
    let question = known.question();
    if !asks_addresses(question) || !is_listed(lists, &question.name) {
        return Ok(());
    }
    match known.fact() {
        Fact::Answer(answer) => push_addresses(&question.name, answer.answers(), all),
        Fact::Broken(_) => Ok(()),
    }
}

// Puts the addresses in the records of this owner behind the others.
fn push_addresses(
    owner: &Name,
    records: RecordRefs<'_>,
    all: &mut Vec<Addr>,
) -> Result<(), AllocError>
    ensures { OnOk result (all.new.items ≡ all.old.items ++ addresses_in owner.now records.entry) }
{
    for rr in records {
        push_address(owner, rr, all)?;
    }
    Ok(())
}

// Puts the address that the record holds, if it is of this owner, behind the others.
fn push_address(owner: &Name, rr: RecordRef<'_>, all: &mut Vec<Addr>) -> Result<(), AllocError>
    ensures { OnOk result (all.new.items
        ≡ all.old.items ++ option_to_list (address_of owner.now rr.entry)) }
{
    if !rr.owner().is_same(owner) {
        return Ok(());
    }
    if let Some(addr) = rr.address() {
        all.push(addr)?;
    }
    Ok(())
}
