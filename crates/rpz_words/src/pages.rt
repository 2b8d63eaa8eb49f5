//! Pages that are shown on request.

ghost use Rattle.std.specs.List.{list_any};
ghost use Rattle.std.specs.Prelude.{◌≡◌, map, string_bytes};
ghost use Rattle.rpz_words.specs.Pages as pages_form;
ghost use Rattle.rpz_words.specs.Pages.{page_of, page_text};

/// The usage of the program in short, without a line feed at its end.
pub const USAGE: &str = "\
usage: rpz serve [OPTION]... LISTEN UPSTREAM TURNS WORKERS ZONE@PRIMARY...
       rpz replay < SCRIPT
       rpz load SEED RULES QUERIES WORKERS
       rpz help [COMMAND]
       rpz --version";

const COMMANDS_PAGE: &str = "\
rpz: a caching DNS forwarder that enforces response policy zones

usage: rpz serve [OPTION]... LISTEN UPSTREAM TURNS WORKERS ZONE@PRIMARY...
       rpz replay < SCRIPT
       rpz load SEED RULES QUERIES WORKERS
       rpz help [COMMAND]
       rpz --version

  serve    answers clients over UDP and TCP
  replay   answers a recorded script, and writes its transcript
  load     answers generated queries in memory, and writes one line
  help     shows this page, or that of a command

`rpz COMMAND --help` shows the arguments of a command; the manual is rpz(8).
";

const SERVE_PAGE: &str = "\
usage: rpz serve [OPTION]... LISTEN UPSTREAM TURNS WORKERS ZONE@PRIMARY...

Answers clients over UDP and TCP by the rules of policy zones, and forwards
what the rules don't decide.

  LISTEN            where clients are answered: A.B.C.D:PORT or [V6]:PORT;
                    up to 16, with commas between
  UPSTREAM          the recursive resolver, asked over TCP: A.B.C.D:PORT or
                    [V6]:PORT
  TURNS             after how many arrivals it ends, 1 to 4294967295; or `forever`
  WORKERS           how many threads answer datagrams at each LISTEN: 1 to 16
  ZONE@PRIMARY      a policy zone, and the primary that it is transferred from,
                    A.B.C.D:PORT or [V6]:PORT; 1 to 64 zones, in order of
                    precedence

What stands behind a ZONE@PRIMARY takes the place of what its rules do:
  =given            nothing else: they do what the zone says, as without it
  =disabled         the zone has no rules
  =nxdomain         NXDOMAIN
  =nodata           NOERROR without records
  =passthru         the answer of UPSTREAM passes
  =drop             no reply
  =tcp-only         over UDP the client is sent to TCP, where the answer passes
  =cname:TARGET     a CNAME to this name; to `*.NAME`, in quotes for a shell:
                    to the name that was asked for, followed by NAME

Options, anywhere behind `serve`:
  --askers N        how many threads ask UPSTREAM, so that others need not wait:
                    1 to 512, and 256 if it isn't given
  --cache ENTRIES   how many answers the cache of all workers holds at most:
                    16 to 1048576, and 65536 if it isn't given
  --hold SECONDS    answers nobody before each zone was loaded once, or before
                    so many seconds are over; 0 waits without end
  --tcp-clients CLIENTS
                    how many connections of clients are open at most:
                    1 to 65535, and 1000 if it isn't given
  --tcp-per-client EACH
                    the same of one client: 1 to 65535, and 100 if it isn't given
  --allow PREFIX,...
                    who may ask: ADDRESS/LENGTH, of both versions, up to 64;
                    everyone if it isn't given. Others get REFUSED, but for the
                    NOTIFYs of primaries

Examples:
  rpz serve 192.0.2.53:53 127.0.0.1:5335 forever 4 rpz.example@127.0.0.1:5301
  rpz serve '192.0.2.53:53,[2001:db8::53]:53' '[::1]:5335' forever 4 \\
      --allow 192.0.2.0/24,2001:db8::/32,127.0.0.1/32 'rpz.example@[::1]:5301'
";

const REPLAY_PAGE: &str = "\
usage: rpz replay < SCRIPT

Answers the script on standard input line by line, and writes the transcript to
standard output: transfers, queries and the answers of an upstream in place of
the network.
";

const LOAD_PAGE: &str = "\
usage: rpz load SEED RULES QUERIES WORKERS

Makes a policy zone and queries from a seed, answers them, and writes one line,
which is the same for every number of workers.

  SEED      0 to 4294967295
  RULES     how many rules are made: 0 to 1000000
  QUERIES   how many queries are made: 0 to 1000000
  WORKERS   how many threads answer: 1 to 16
";

// The version of the program, as CHANGELOG.md has it.
const VERSION_PAGE: &str = "rpz 0.3.0-dev\n";

/// What is shown on request.
#[derive(Clone, Copy, Debug, PartialEq, Eq)]
pub enum Page {
    /// All commands: `rpz help`, `rpz --help` or `rpz -h`.
    Commands,
    /// The arguments of a command: `rpz COMMAND --help`, `rpz COMMAND -h` or `rpz help COMMAND`.
    Replay,
    Serve,
    Load,
    /// The version: `rpz --version` or `rpz -V`.
    Version,
}

impl Page {
    /// What is shown, ASCII text that ends with a line feed.
    pub fn text(self) -> &'static str
        ensures { result.now ≡ page_text self }
    {
        match self {
            Page::Commands => COMMANDS_PAGE,
            Page::Replay => REPLAY_PAGE,
            Page::Serve => SERVE_PAGE,
            Page::Load => LOAD_PAGE,
            Page::Version => VERSION_PAGE,
        }
    }
}

/// The page that the words ask for behind the program's name, if they do.
pub(crate) fn page_in(words: &[String]) -> Option<Page>
    ensures { result ≡ page_of (map string_bytes words.now) }
{
    match words {
        [] => None,
        [first, rest @ ..] => page_by(first.as_str(), rest),
    }
}

// The same, by the first word and those behind it.
fn page_by(first: &str, rest: &[String]) -> Option<Page>
    ensures { result ≡ pages_form.page_by first.now (map string_bytes rest.now) }
{
    if is_help(first) {
        Some(Page::Commands)
    } else if is_version(first) {
        Some(Page::Version)
    } else if has_help(rest) {
        command_page(first)
    } else if first == "help" {
        help_page(rest)
    } else {
        None
    }
}

// Whether one of the words is `--help` or `-h`.
fn has_help(words: &[String]) -> bool
    ensures { result ≡ list_any (λ word. pages_form.is_help (string_bytes word)) words.now }
{
    words.iter().any(|word| is_help(word.as_str()))
}

// The page that `help` shows of these names.
fn help_page(names: &[String]) -> Option<Page>
    ensures { result ≡ pages_form.help_page (map string_bytes names.now) }
{
    match names {
        [] => Some(Page::Commands),
        [name] => command_page(name.as_str()),
        _ => None,
    }
}

// The page of the command of this name.
fn command_page(name: &str) -> Option<Page>
    ensures { result ≡ pages_form.command_page name.now }
{
    match name {
        "help" => Some(Page::Commands),
        "replay" => Some(Page::Replay),
        "serve" => Some(Page::Serve),
        "load" => Some(Page::Load),
        _ => None,
    }
}

// Whether the word is `--help` or `-h`.
fn is_help(word: &str) -> bool
    ensures { result ≡ pages_form.is_help word.now }
{
    word == "--help" || word == "-h"
}

// Whether the word is `--version` or `-V`.
fn is_version(word: &str) -> bool
    ensures { result ≡ pages_form.is_version word.now }
{
    word == "--version" || word == "-V"
}
