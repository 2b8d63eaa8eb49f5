//! A cache of what was learned, and what a look-up finds at a given second.

use crate::links::{RESPONSE, question};
use answer_cache::AnswerCache;
use dns_name::Octets;
use edge_io::ListLink;
use std::alloc::Global;
use std::hash::{BuildHasherDefault, FoldHasher};
use std::process::Abort;
use upstream_link::Learned;

type Cache = AnswerCache<ListLink, BuildHasherDefault<FoldHasher>>;

// Whether the cache answers the question about this type at a second.
fn is_found<R: Abort>(rt: &R, alloc: Global, cache: &mut Cache, qtype: u16, now: u32) -> bool {
    let mut asked = question(rt, alloc);
    asked.qtype = qtype;
    cache
        .get(alloc, &asked, now)
        .expect(rt, "no error")
        .is_some()
}

// A cache with room for an entry, which has the one of the question about type 1.
fn filled<R: Abort>(rt: &R, alloc: Global) -> Cache {
    let mut cache = AnswerCache::open(alloc, 1, BuildHasherDefault::new()).expect(rt, "no error");
    let asked = question(rt, alloc);
    let bytes = Octets::from_slice(alloc, RESPONSE).expect(rt, "no error");
    let entry = Learned::given(alloc, 7, &asked, &bytes, 100).expect(rt, "no error");
    cache.keep(alloc, &asked, entry).expect(rt, "no error");
    cache
}

#[test]
fn an_entry_is_found_while_it_is_live(rt: HostRuntime) {
    let mut cache = filled(&rt, rt.alloc());
    for (qtype, now, found) in [
        (1, 99, false),
        (1, 100, true),
        (1, 159, true),
        (1, 160, false),
        (28, 100, false),
    ] {
        assert!(rt;
            is_found(&rt, rt.alloc(), &mut cache, qtype, now) == found,
            "{qtype} {now}"
        );
    }
}

#[test]
fn an_emptied_cache_has_none(rt: HostRuntime) {
    let mut cache = filled(&rt, rt.alloc());
    cache.clear();
    assert!(rt; !is_found(&rt, rt.alloc(), &mut cache, 1, 100));
}
