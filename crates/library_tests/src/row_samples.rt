//! A row and a zone that the tests of several crates use.

use dns_name::Name;
use dns_record::{Row, Soa, class, read_record};
use std::alloc::{AllocError, Global};
use std::process::Abort;
use zone_rows::Rows;

/// A rule about the name server `ns.test`: an alias of `*.`, which says that there are no records.
pub const SERVER: &[u8] =
    b"\x02ns\x04test\x0brpz-nsdname\x03rpz\x07example\0\0\x05\0\x01\0\0\0\x01\0\x03\x01*\0";

/// The zone's name.
pub fn zone_name<R: Abort>(rt: &R, alloc: Global) -> Name {
    Name::from_text(alloc, b"rpz.example").expect(rt, "no error")
}

/// The SOA of the serial 1, with the root for both names.
pub fn first_soa(alloc: Global) -> Result<Soa, AllocError> {
    Ok(Soa {
        mname: Name::root(alloc)?,
        rname: Name::root(alloc)?,
        serial: 1,
        refresh: 3600,
        retry: 600,
        expire: 86400,
        minimum: 60,
        ttl: 60,
    })
}

/// The row that a record is.
pub fn row<R: Abort>(rt: &R, alloc: Global, octets: &[u8]) -> Row {
    let (rr, _) = read_record(alloc, octets, 0).expect(rt, "no error");
    if rr.class() != class::IN {
        return panic!(rt; "a row");
    }
    Row::of(alloc, &rr).expect(rt, "no error")
}

/// The rows that these records are.
pub fn rows<R: Abort>(rt: &R, alloc: Global, records: &[&[u8]]) -> Rows {
    let mut rows = Rows::new(alloc);
    for octets in records {
        rows.push(row(rt, alloc, octets)).expect(rt, "no error");
    }
    rows
}

/// The rows of a list, each on its own.
pub fn own_rows<R: Abort>(rt: &R, alloc: Global, rows: &Rows) -> Vec<Row> {
    let mut own = Vec::new(alloc);
    for place in 0..rows.len() {
        let row = rows.at(place).to_row(alloc).expect(rt, "no error");
        own.push(row).expect(rt, "no error");
    }
    own
}
