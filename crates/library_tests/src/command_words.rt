//! What the words of a command line ask for.

use crate::asserts::assert_same;
use edge_io::Endpoint;
use ip_prefix::Addr;
use policy_override::{Override, ZoneSets};
use rpz_words::{
    Command, EndpointFault, EndpointText, ListFault, Settings, UsageCause, WordsError, laws,
    read_words,
};
use std::alloc::{AllocError, Global};
use std::process::Abort;

static SERVE: &str =
    "serve 127.0.0.1:5300 9.9.9.9:53 2 16 rpz.example@127.0.0.1:5301 b@127.0.0.2:65535";

// Lines that ask for a server.
static TAKEN: [&str; 7] = [
    "serve 127.0.0.1:1 9.9.9.9:53 1 1 a@127.0.0.1:5301",
    "serve 127.0.0.1:65535 9.9.9.9:53 4294967295 16 a@127.0.0.1:5301",
    "serve 127.0.0.1:1 9.9.9.9:53 forever 1 a@127.0.0.1:5301",
    "serve 127.000.0.01:00053 9.9.9.9:53 0000000002 01 a.b.@127.0.0.1:5301",
    "serve -- 127.0.0.1:5300 9.9.9.9:53 2 1 a@127.0.0.1:5301",
    "serve --cache 16 127.0.0.1:1 9.9.9.9:53 1 1 a@127.0.0.1:5301",
    "serve --cache 1048576 127.0.0.1:1 9.9.9.9:53 1 1 a@127.0.0.1:5301",
];

// Endpoints as they are read, by their addresses and ports, and as they are written (RFC 4291, section 2.2; RFC 5952, section 4).
static ENDPOINTS: [(&str, Addr, u16, &str); 8] = [
    ("127.0.0.1:53", Addr::V4(0x7f00_0001), 53, "127.0.0.1:53"),
    (
        "000.010.0.255:00001",
        Addr::V4(0x000a_00ff),
        1,
        "0.10.0.255:1",
    ),
    ("[::1]:53", Addr::V6(1), 53, "[::1]:53"),
    ("[::]:65535", Addr::V6(0), 65_535, "[::]:65535"),
    (
        "[2001:DB8:0:0:8:800:200C:417A]:5300",
        Addr::V6(0x2001_0db8_0000_0000_0008_0800_200c_417a),
        5_300,
        "[2001:db8::8:800:200c:417a]:5300",
    ),
    (
        "[FF01::101]:00053",
        Addr::V6(0xff01_0000_0000_0000_0000_0000_0000_0101),
        53,
        "[ff01::101]:53",
    ),
    (
        "[2001:db8::192.0.2.33]:53",
        Addr::V6(0x2001_0db8_0000_0000_0000_0000_c000_0221),
        53,
        "[2001:db8::c000:221]:53",
    ),
    (
        "[1:2:3:4:5:6:7:8]:8",
        Addr::V6(0x0001_0002_0003_0004_0005_0006_0007_0008),
        8,
        "[1:2:3:4:5:6:7:8]:8",
    ),
];

// Addresses, and whether `--allow 192.0.2.0/25,2001:db8::/33` lets them ask.
static ASKING: [(Addr, bool); 8] = [
    (Addr::V4(0xc000_0200), true),
    (Addr::V4(0xc000_027f), true),
    (Addr::V4(0xc000_0280), false),
    (Addr::V4(0xc000_01ff), false),
    (Addr::V6(0x2001_0db8_7fff_ffff_ffff_ffff_ffff_ffff), true),
    (Addr::V6(0x2001_0db8_8000_0000_0000_0000_0000_0000), false),
    (Addr::V6(0xffff_c000_0200), false),
    (Addr::V6(1), false),
];

// Lines that ask for a server with a cache of 64 answers.
static CACHES: [&str; 5] = [
    "serve --cache 64 127.0.0.1:1 9.9.9.9:53 1 1 a@127.0.0.1:5301",
    "serve 127.0.0.1:1 --cache=64 9.9.9.9:53 1 1 a@127.0.0.1:5301",
    "serve 127.0.0.1:1 9.9.9.9:53 1 1 a@127.0.0.1:5301 --cache 64 b@127.0.0.1:5301",
    "serve 127.0.0.1:1 9.9.9.9:53 1 1 a@127.0.0.1:5301 --cache 0000000064",
    "serve --cache 64 -- 127.0.0.1:1 9.9.9.9:53 1 1 a@127.0.0.1:5301",
];

// Lines that ask for nothing.
static REFUSED: [&str; 63] = [
    "",
    "replay x",
    "frob",
    "load 1 0 0",
    "load 1 0 0 2 3",
    "load 4294967296 0 0 2",
    "load 1 1000001 0 2",
    "load 1 0 1000001 2",
    "load 1 0 0 0",
    "load 1 0 0 17",
    "load +1 0 0 2",
    "load 00000000001 0 0 2",
    "load x 0 0 2",
    "serve",
    "serve help",
    "help frob",
    "frob --help",
    "help serve load",
    "serve 127.0.0.1:5300",
    "serve 127.0.0.1:5300 9.9.9.9:53 2 1",
    "serve 127.0.0.1:0 9.9.9.9:53 2 1 a@127.0.0.1:5301",
    "serve 127.0.0.1:65536 9.9.9.9:53 2 1 a@127.0.0.1:5301",
    "serve 127.0.0.1:000053 9.9.9.9:53 2 1 a@127.0.0.1:5301",
    "serve 127.0.0.1:+53 9.9.9.9:53 2 1 a@127.0.0.1:5301",
    "serve 127.0.0.1: 9.9.9.9:53 2 1 a@127.0.0.1:5301",
    "serve 127.0.0.1 9.9.9.9:53 2 1 a@127.0.0.1:5301",
    "serve 127.0.0.1:5300 1.2.3:53 2 1 a@127.0.0.1:5301",
    "serve 127.0.0.1:5300 1.2.3.256:53 2 1 a@127.0.0.1:5301",
    "serve 127.0.0.1:5300 9.9.9.9:53:53 2 1 a@127.0.0.1:5301",
    "serve 127.0.0.1:5300 9.9.9.9:53 0 1 a@127.0.0.1:5301",
    "serve 127.0.0.1:5300 9.9.9.9:53 4294967296 1 a@127.0.0.1:5301",
    "serve 127.0.0.1:5300 9.9.9.9:53 +1 1 a@127.0.0.1:5301",
    "serve 127.0.0.1:5300 9.9.9.9:53 -1 1 a@127.0.0.1:5301",
    "serve 127.0.0.1:5300 9.9.9.9:53 -- -1 1 a@127.0.0.1:5301",
    "serve 127.0.0.1:5300 9.9.9.9:53 2 0 a@127.0.0.1:5301",
    "serve 127.0.0.1:5300 9.9.9.9:53 2 17 a@127.0.0.1:5301",
    "serve 127.0.0.1:5300 9.9.9.9:53 2 1 a.127.0.0.1:5301",
    "serve 127.0.0.1:5300 9.9.9.9:53 2 1 @127.0.0.1:5301",
    "serve 127.0.0.1:5300 9.9.9.9:53 2 1 a@127.0.0.1",
    "serve 127.0.0.1:5300 9.9.9.9:53 2 1 a..b@127.0.0.1:5301",
    "serve 127.0.0.1:5300 9.9.9.9:53 2 1 a@127.0.0.1:5301=",
    "serve 127.0.0.1:5300 9.9.9.9:53 2 1 a@127.0.0.1:5301=off",
    "serve 127.0.0.1:5300 9.9.9.9:53 2 1 a@127.0.0.1:5301=Drop",
    "serve 127.0.0.1:5300 9.9.9.9:53 2 1 a@127.0.0.1:5301=cname",
    "serve 127.0.0.1:5300 9.9.9.9:53 2 1 a@127.0.0.1:5301=cname:.",
    "serve 127.0.0.1:5300 9.9.9.9:53 2 1 a@127.0.0.1:5301=drop:b",
    "serve 127.0.0.1:5300 9.9.9.9:53 2 1 rpz.example@127.0.0.1:5301 RPZ.Example@127.0.0.2:5301",
    "serve 127.0.0.1:5300 9.9.9.9:53 2 1 rpz.example@127.0.0.1:5301 rpz.example.@127.0.0.1:5301",
    "--cache 64 serve 127.0.0.1:5300 9.9.9.9:53 2 1 a@127.0.0.1:5301",
    "load --cache 64 1 0 0 2",
    "serve --cache 15 127.0.0.1:5300 9.9.9.9:53 2 1 a@127.0.0.1:5301",
    "serve --cache 1048577 127.0.0.1:5300 9.9.9.9:53 2 1 a@127.0.0.1:5301",
    "serve --cache 4294967360 127.0.0.1:5300 9.9.9.9:53 2 1 a@127.0.0.1:5301",
    "serve --cache 00000000064 127.0.0.1:5300 9.9.9.9:53 2 1 a@127.0.0.1:5301",
    "serve --cache +64 127.0.0.1:5300 9.9.9.9:53 2 1 a@127.0.0.1:5301",
    "serve --cache -64 127.0.0.1:5300 9.9.9.9:53 2 1 a@127.0.0.1:5301",
    "serve --cache= 127.0.0.1:5300 9.9.9.9:53 2 1 a@127.0.0.1:5301",
    "serve 127.0.0.1:5300 9.9.9.9:53 2 1 a@127.0.0.1:5301 --cache",
    "serve --cache 64 127.0.0.1:5300 9.9.9.9:53 2 1 a@127.0.0.1:5301 --cache 64",
    "serve --cache=64 --cache=65 127.0.0.1:5300 9.9.9.9:53 2 1 a@127.0.0.1:5301",
    "serve --cach 64 127.0.0.1:5300 9.9.9.9:53 2 1 a@127.0.0.1:5301",
    "serve -- --cache 64 127.0.0.1:5300 9.9.9.9:53 2 1 a@127.0.0.1:5301",
    "serve --cache -- 64 127.0.0.1:5300 9.9.9.9:53 2 1 a@127.0.0.1:5301",
];

// The words of overrides.
static WORDS: [&str; 7] = [
    "given", "disabled", "nxdomain", "nodata", "passthru", "drop", "tcp-only",
];

// The words of a line, which single spaces separate.
fn words_of(alloc: Global, line: &str) -> Result<Vec<String>, AllocError> {
    let mut words = Vec::new(alloc);
    for word in line.split(' ') {
        if !word.is_empty() {
            words.push(String::from_str(alloc, word)?)?;
        }
    }
    Ok(words)
}

fn asked(alloc: Global, line: &str) -> Result<Command, WordsError> {
    let words = words_of(alloc, line)?;
    read_words(alloc, &words)
}

fn served(alloc: Global, line: &str) -> Result<Option<Settings>, WordsError> {
    match asked(alloc, line)? {
        Command::Replay | Command::Load(_) | Command::Show(_) => Ok(None),
        Command::Serve(settings) => Ok(Some(settings)),
    }
}

// The zones of a server with one zone, behind whose primary this stands.
fn zones_with(alloc: Global, behind: &str) -> Result<ZoneSets, WordsError> {
    let line = format!(in alloc; "serve 127.0.0.1:1 9.9.9.9:53 1 1 a@127.0.0.1:5301{behind}")?;
    match served(alloc, line.as_str())? {
        Some(settings) => Ok(settings.zones.sets(alloc)?),
        None => Err(WordsError::Usage(UsageCause::Words)),
    }
}

// The word of an override.
fn word_of(over: &Override) -> &'static str {
    match over {
        Override::Given => "given",
        Override::Disabled => "disabled",
        Override::NxDomain => "nxdomain",
        Override::NoData => "nodata",
        Override::PassThru => "passthru",
        Override::Drop => "drop",
        Override::TcpOnly => "tcp-only",
        Override::Cname(_) => "cname",
    }
}

// A line of `serve` with so many zones.
fn line_of_zones(alloc: Global, count: u32) -> Result<String, AllocError> {
    let mut line = String::from_str(alloc, "serve 127.0.0.1:5300 9.9.9.9:53 2 1")?;
    for number in 0..count {
        let zone = format!(in alloc; " z{number}.example@127.0.0.1:5301")?;
        line.push_str(zone.as_str())?;
    }
    Ok(line)
}

#[test]
fn laws_do_nothing() {
    laws::what_is_asked_for_is_within_limits();
    laws::the_port_of_an_endpoint_is_not_0();
    laws::an_endpoint_is_read_back();
    laws::a_number_has_no_sign();
}

#[test]
fn replay_is_asked_for(rt: HostRuntime) {
    assert!(rt; matches!(asked(rt.alloc(), "replay"), Ok(Command::Replay)));
}

#[test]
fn a_load_run_gets_its_settings(rt: HostRuntime) {
    match asked(rt.alloc(), "load 4294967295 1000000 0001000000 16") {
        Ok(Command::Load(settings)) => {
            assert_same(&rt, settings.seed, 4_294_967_295);
            assert_same(&rt, settings.rules, 1_000_000);
            assert_same(&rt, settings.queries, 1_000_000);
            assert_same(&rt, settings.workers, 16);
        }
        _ => assert!(rt; false, "no load run"),
    }
}

#[test]
fn a_server_gets_its_settings(rt: HostRuntime) {
    let settings = served(rt.alloc(), SERVE)
        .expect(&rt, "no error")
        .expect(&rt, "no server");
    let listen = Endpoint {
        addr: Addr::V4(0x7f00_0001),
        port: 5300,
    };
    let upstream = Endpoint {
        addr: Addr::V4(0x0909_0909),
        port: 53,
    };
    assert!(rt; settings.listen.as_slice() == [listen].as_slice());
    assert_same(&rt, settings.listen.len(), 1);
    assert_same(&rt, settings.allowed.len(), 0);
    assert_same(&rt, settings.upstream, upstream);
    assert_same(&rt, settings.turns, Some(2));
    assert_same(&rt, settings.workers, 16);
    assert_same(&rt, settings.cache, 65_536);
}

#[test]
fn a_cache_is_limited_wherever_the_option_stands(rt: HostRuntime) {
    for line in CACHES {
        let settings = served(rt.alloc(), line)
            .expect(&rt, "no error")
            .expect(&rt, "no server");
        assert!(rt; settings.cache == 64, "{line}");
    }
}

#[test]
fn a_server_gets_its_zones(rt: HostRuntime) {
    let settings = served(rt.alloc(), SERVE)
        .expect(&rt, "no error")
        .expect(&rt, "no server");
    assert_same(&rt, settings.zones.len(), 2);
    let second = Endpoint {
        addr: Addr::V4(0x7f00_0002),
        port: 65_535,
    };
    let primaries = settings.zones.primaries(rt.alloc()).expect(&rt, "no error");
    assert!(rt; primaries.len() == 2);
    assert_same(&rt, primaries[1], second);
    let zones = settings.zones.sets(rt.alloc()).expect(&rt, "no error");
    assert!(rt; zones.len() == 2);
    let first = &zones.as_slice()[0];
    assert_same(
        &rt,
        first.origin.octets(),
        b"\x03rpz\x07example\x00".as_slice(),
    );
    assert_same(&rt, word_of(&first.over), "given");
}

#[test]
fn a_zone_gets_the_override_of_its_word(rt: HostRuntime) {
    for word in WORDS {
        let behind = format!(in rt.alloc(); "={word}").expect(&rt, "no error");
        let zones = zones_with(rt.alloc(), behind.as_str()).expect(&rt, "no error");
        assert!(rt; zones.len() == 1);
        assert_same(&rt, word_of(&zones.as_slice()[0].over), word);
    }
}

#[test]
fn a_zone_gets_the_target_of_its_override(rt: HostRuntime) {
    let zones = zones_with(rt.alloc(), "=cname:*.Garden.example.").expect(&rt, "no error");
    assert!(rt; zones.len() == 1);
    match &zones.as_slice()[0].over {
        Override::Cname(target) => assert_same(
            &rt,
            target.octets(),
            b"\x01*\x06Garden\x07example\x00".as_slice(),
        ),
        _ => assert!(rt; false, "no target"),
    }
}

#[test]
fn a_server_is_asked_for(rt: HostRuntime) {
    for line in TAKEN {
        let taken = matches!(asked(rt.alloc(), line), Ok(Command::Serve(_)));
        assert!(rt; taken, "{line}");
    }
}

#[test]
fn other_lines_ask_for_nothing(rt: HostRuntime) {
    for line in REFUSED {
        let refused = matches!(asked(rt.alloc(), line), Err(WordsError::Usage(_)));
        assert!(rt; refused, "{line}");
    }
}

#[test]
fn at_most_64_zones_are_taken(rt: HostRuntime) {
    let most = line_of_zones(rt.alloc(), 64).expect(&rt, "no error");
    let settings = served(rt.alloc(), most.as_str())
        .expect(&rt, "no error")
        .expect(&rt, "no server");
    assert_same(&rt, settings.zones.len(), 64);
    let more = line_of_zones(rt.alloc(), 65).expect(&rt, "no error");
    assert!(rt; matches!(asked(rt.alloc(), more.as_str()), Err(WordsError::Usage(_))));
}

// The settings of a server with this word as LISTEN, UPSTREAM or PRIMARY.
fn with_endpoints(
    alloc: Global,
    listen: &str,
    other: &str,
) -> Result<Option<Settings>, WordsError> {
    let line = format!(in alloc; "serve {listen} {other} forever 1 a@{other}=nodata")?;
    served(alloc, line.as_str())
}

// The endpoint is read from its text wherever it may stand, and is written so.
fn check_endpoint(rt: &impl Abort, alloc: Global, text: &str, endpoint: Endpoint, written: &str) {
    let settings = with_endpoints(alloc, text, text)
        .expect(rt, "no error")
        .expect(rt, "no server");
    assert!(rt;
        settings.listen.as_slice() == [endpoint].as_slice(),
        "{text}"
    );
    assert!(rt; settings.upstream == endpoint, "{text}");
    let primaries = settings.zones.primaries(alloc).expect(rt, "no error");
    assert!(rt; primaries.as_slice() == [endpoint].as_slice(), "{text}");
    let shown = EndpointText(endpoint);
    let shown = format!(in alloc; "{shown}").expect(rt, "no error");
    assert!(rt; shown.as_str() == written, "{text}");
}

#[test]
fn an_endpoint_is_read_from_its_text(rt: HostRuntime) {
    for (text, addr, port, written) in ENDPOINTS {
        check_endpoint(&rt, rt.alloc(), text, Endpoint { addr, port }, written);
    }
}

#[test]
fn endpoints_are_taken_in_order(rt: HostRuntime) {
    let listen = "[::1]:5300,127.0.0.1:5300,[::1]:53";
    let settings = with_endpoints(rt.alloc(), listen, "127.0.0.1:1")
        .expect(&rt, "no error")
        .expect(&rt, "no server");
    let first = Endpoint {
        addr: Addr::V6(1),
        port: 5_300,
    };
    let second = Endpoint {
        addr: Addr::V4(0x7f00_0001),
        port: 5_300,
    };
    let third = Endpoint {
        addr: Addr::V6(1),
        port: 53,
    };
    let again = settings.listen.again(rt.alloc()).expect(&rt, "no error");
    assert!(rt; again.as_slice() == [first, second, third].as_slice());
}

#[test]
fn clients_of_networks_may_ask(rt: HostRuntime) {
    let line =
        "serve --allow 192.0.2.0/25,2001:db8::/33 127.0.0.1:1 9.9.9.9:53 1 1 a@127.0.0.1:5301";
    let settings = served(rt.alloc(), line)
        .expect(&rt, "no error")
        .expect(&rt, "no server");
    assert_same(&rt, settings.allowed.len(), 2);
    for (addr, may_ask) in ASKING {
        assert_same(&rt, settings.allowed.allows(addr), may_ask);
    }
}

#[test]
fn a_cause_is_told(rt: HostRuntime) {
    let cause = UsageCause::Listen(ListFault::At {
        number: 2,
        why: EndpointFault::Mapped,
    });
    let listen = "127.0.0.1:53,[::ffff:127.0.0.1]:53";
    let refused = with_endpoints(rt.alloc(), listen, "127.0.0.1:1").err();
    assert!(rt; refused == Some(WordsError::Usage(cause)));
    let told = format!(in rt.alloc(); "{cause}").expect(&rt, "no error");
    assert_same(&rt, told.as_str(), "usage: LISTEN 2: Mapped");
}
