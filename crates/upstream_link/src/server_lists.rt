//! The name servers of a name and of the names above it, as they were read when their facts came.

ghost use Rattle.std.specs.Prelude.{◌≡◌, ℕ, List, [], ◌∷◌, ◌++◌, map, IfOk, OnOk};
ghost use Rattle.upstream_link.specs.Known.{AreListsOf, HaveSameMembers};
ghost use Rattle.upstream_link.specs.Servers.{addresses_of, servers, servers_at};

use crate::addresses::push_known;
use crate::facts::Facts;
use crate::name_servers::ancestors;
use crate::names::Names;
use dns_name::Name;
use ip_prefix::Addr;
use std::alloc::{AllocError, Global};
use std::marker::Model;

/// Lists of servers, one for each answer to an NS question, each in canonical order, each name once, in lower case. Contracts
/// see these lists.
#[derive(Drop)]
pub struct ServerLists<'f> {
    lists: Vec<&'f Names>,
}

impl<'f> Model for ServerLists<'f> {
    ghost use Rattle.std.specs.Prelude.{ℕ, List, map};

    ghost Value = { List (List (List (List ℕ))) };

    ghost view = { λ s. map (λ list. list.now) s.lists.items };
}

impl<'f> ServerLists<'f> {
    /// No lists. It takes no memory.
    pub fn new(alloc: Global) -> Self
        ensures { result ≡ [] }
    {
        ServerLists {
            lists: Vec::new(alloc),
        }
    }

    /// The lists.
    pub fn as_slice(&self) -> &[&'f Names]
        ensures { map (λ list. list.now) result.now ≡ self.now }
    {
        self.lists.as_slice()
    }

    // Puts a list at the end.
    fn push(&mut self, list: &'f Names) -> Result<(), AllocError>
        ensures { OnOk result (self.new ≡ self.old ++ list.now ∷ []) }
    {
        self.lists.push(list)?;
        Ok(())
    }
}

/// The servers of a name and of the names above it that have at least two labels, as far as they are known: one list for each
/// answer to an NS question about these. No name is copied.
pub fn known_servers<'f>(
    alloc: Global,
    facts: &'f Facts,
    name: &Name,
) -> Result<ServerLists<'f>, AllocError>
    ensures { IfOk result (λ lists. AreListsOf lists (servers facts.now name.now)) }
{
    if !facts.has_servers() {
        return Ok(ServerLists::new(alloc));
    }
    let owners = ancestors(alloc, name)?;
    let mut lists = ServerLists::new(alloc);
    for owner in owners.as_slice() {
        push_list(facts, owner, &mut lists)?;
    }
    Ok(lists)
}

// Puts the list of exactly this name behind the others, if its NS question is answered.
fn push_list<'f>(
    facts: &'f Facts,
    owner: &Name,
    lists: &mut ServerLists<'f>,
) -> Result<(), AllocError>
    ensures { OnOk result ((names : List (List (List ℕ))) → AreListsOf lists.old names →
        AreListsOf lists.new (names ++ servers_at facts.now owner.now)) }
{
    match facts.servers_at(lists.lists.len(), owner) {
        Some(list) => {
            lists.push(list)?;
            Ok(())
        }
        None => Ok(()),
    }
}

/// The addresses of the servers of these lists, as far as they are known, in no order. Its time is that of looking each known
/// owner of addresses up in the lists.
pub fn server_addresses(
    alloc: Global,
    facts: &Facts,
    lists: &ServerLists<'_>,
) -> Result<Vec<Addr>, AllocError>
    ensures { IfOk result (λ all. (names : List (List (List ℕ))) → AreListsOf lists.now names →
        HaveSameMembers all.items (addresses_of facts.now names)) }
{
    let mut all = Vec::new(alloc);
    for known in facts.as_slice() {
        push_known(known, lists.as_slice(), &mut all)?;
    }
    Ok(all)
}
