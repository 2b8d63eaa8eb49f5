//! Who may ask, for all threads of a server.

ghost use Rattle.std.specs.Prelude.{◌≡◌, IfOk};
ghost use Rattle.std.specs.Arc.{arc_value};

use crate::front::StoreName;
use ip_prefix::Addr;
use networks::AllowList;
use std::alloc::{AllocError, Global};
use std::marker::{Model, PhantomData};
use std::sync::Arc;

/// The networks whose clients may ask, which stand in one place for all threads of a server. They are those of the store that `N`
/// names; contracts see them.
#[derive(Drop)]
pub struct Allowed<N: StoreName> {
    list: Arc<AllowList, Global>,
    of: PhantomData<N>,
}

impl<N: StoreName> Model for Allowed<N> {
    ghost use Rattle.std.specs.Prelude.{◌≡◌, List};
    ghost use Rattle.std.specs.Arc.{arc_value};
    ghost use Rattle.ip_prefix.specs.Prefix.{PlainPrefix};

    ghost Value = { List PlainPrefix };

    ghost view = { λ a. arc_value a.list };

    ghost invariant = { λ a. arc_value a.list ≡ N.store.allowed };
}

impl<N: StoreName> Allowed<N> {
    ghost use Rattle.networks.specs.Allowed.{is_allowed};

    // The list of the store.
    pub(crate) fn new(alloc: Global, list: AllowList) -> Result<Allowed<N>, AllocError>
        requires { list ≡ N.store.allowed }
        ensures { IfOk result (λ allowed. allowed ≡ list) }
    {
        Ok(Allowed {
            list: Arc::new(alloc, list)?,
            of: PhantomData,
        })
    }

    // The same list once more. It takes no memory.
    pub(crate) fn again(&self) -> Result<Allowed<N>, AllocError>
        ensures { IfOk result (λ allowed. allowed ≡ self.now) }
    {
        Ok(Allowed {
            list: Arc::try_clone(&self.list)?,
            of: PhantomData,
        })
    }

    // Whether a client of this address may ask.
    pub(crate) fn allows(&self, addr: Addr) -> bool
        ensures { result ≡ is_allowed N.store.allowed addr }
    {
        self.list.allows(addr)
    }
}
