//! Reads the words of a command line.

ghost use Rattle.std.specs.Prelude.{◌≡◌, ◌≢◌, [], IfOk, OnOk, Ok, Err, None, map, option_map, true};
ghost use Rattle.clap.specs.Words.{all_of, first_of, found_of, rows_of, subcommand_of, subcommand_rows_of, takes};
ghost use Rattle.clap.specs.Faults.{fault_of};
ghost use Rattle.rpz_words.specs.Outcome.{Gives};
ghost use Rattle.rpz_words.specs.Lists.{allowed_of};
ghost use Rattle.rpz_words.specs.Values.{askers_of, cache_of, connections_of, hold_of, turns_of};
ghost use Rattle.rpz_words.specs.Values as values_form;
ghost use Rattle.rpz_words.specs.Limits.{IsWithinLimits};
ghost use Rattle.rpz_words.specs.Words as words_form;
ghost use Rattle.rpz_words.specs.Words.{argv, command_in, command_of, load_settings_of, page_in, plain_settings_of, rpz_app, settings_of, value_at};
ghost use Rattle.rpz_words.specs.declared.pages.Page.{Page};

use crate::allowed::read_networks;
use crate::command::Command;
use crate::command_set::rpz_command;
use crate::endpoint_text::read_endpoint;
use crate::endpoints::{Endpoints, read_listen};
use crate::pages;
use crate::settings::{
    ASKER_LIMIT, CONNECTION_LIMIT, HOLD_LIMIT, LEAST_CACHE, LOAD_WORKER_LIMIT, LoadSettings,
    MOST_CACHE, PlainSettings, QUERY_LIMIT, RULE_LIMIT, SEED_LIMIT, Settings, USUAL_ASKERS,
    USUAL_CACHE, USUAL_CONNECTIONS, USUAL_PER_CLIENT, WORKER_LIMIT,
};
use crate::usage_cause::{Argument, UsageCause};
use crate::values::{count_to, number_between, number_to, read_turns};
use crate::words_error::WordsError;
use crate::zone_words::read_zones;
use crate::zones::Zones;
use clap::ArgMatches;
use clap::error::ErrorKind;
use edge_io::{ConnectionLimits, Endpoint};
use networks::AllowList;
use std::alloc::{AllocError, Global};

/// What the words of a command line ask for, without the program's name: a page where they are those of one, which takes no
/// memory. `Usage` has the cause, in the order of [`UsageCause`].
#[tactic(auto, using(crate::proofs::Limits::outcome_within))]
pub fn read_words(alloc: Global, words: &[String]) -> Result<Command, WordsError>
    ensures ok { IfOk result (λ command. command_in words.now ≡ Ok command) }
    ensures page { (page : Page) → command_in words.now ≡ Ok (Command.Show page) →
        result ≡ Ok (Command.Show page) }

    // no command is asked for by words that `clap` refuses
    ensures taken { OnOk result
        (page_in words.now ≡ None → fault_of rpz_app (argv words.now) ≡ []) }
    ensures within { IfOk result IsWithinLimits }
    ensures usage { (cause : UsageCause) → result ≡ Err (WordsError.Usage cause) →
        takes rpz_app (argv words.now) ≡ true → command_in words.now ≡ Err cause }

    // words that `clap` refuses are wrong as a whole
    ensures refused { (cause : UsageCause) → result ≡ Err (WordsError.Usage cause) →
        fault_of rpz_app (argv words.now) ≢ [] → cause ≡ UsageCause.Words }
{
    if let Some(page) = pages::page_in(words) {
        return Ok(Command::Show(page));
    }
    let argv = with_program_name(alloc, words)?;
    let matches = matches_of(alloc, &argv)?;
    read_command(alloc, &matches)
}

// The words behind the program's name, as `clap` wants them.
fn with_program_name<'a>(alloc: Global, words: &'a [String]) -> Result<Vec<&'a str>, AllocError>
    ensures { IfOk result (λ all. map (λ word. word.now) all.items ≡ argv words.entry.now) }
{
    let mut argv = Vec::new(alloc);
    argv.push("rpz")?;
    for word in words {
        argv.push(word.as_str())?;
    }
    Ok(argv)
}

// The matches of the words, of which the first is the program's name.
fn matches_of<'a>(alloc: Global, words: &'a [&'a str]) -> Result<ArgMatches<'a>, WordsError>
    ensures ok { IfOk result (λ matches.
        subcommand_rows_of matches
        ≡ subcommand_of rpz_app (map (λ word. word.now) words.entry.now)) }
    ensures taken { OnOk result (fault_of rpz_app (map (λ word. word.now) words.entry.now) ≡ []) }
    ensures usage { (cause : UsageCause) → result ≡ Err (WordsError.Usage cause) →
        takes rpz_app (map (λ word. word.now) words.entry.now) ≡ true → ⊥ }
    ensures words { (cause : UsageCause) → result ≡ Err (WordsError.Usage cause) →
        cause ≡ UsageCause.Words }
{
    let command = rpz_command(alloc)?;
    match command.try_get_matches_from(words) {
        Ok(matches) => Ok(matches),
        Err(error) => match error.kind() {
            ErrorKind::OutOfMemory => Err(WordsError::OutOfMemory),
            _ => Err(WordsError::Usage(UsageCause::Words)),
        },
    }
}

// What the matches ask for.
fn read_command(alloc: Global, matches: &ArgMatches) -> Result<Command, WordsError>
    ensures { Gives result (command_of (subcommand_rows_of matches.now)) }
{
    let (name, values) = matches.subcommand().ok_or(UsageCause::Words)?;
    if name == "replay" {
        return Ok(Command::Replay);
    }
    if name == "serve" {
        return Ok(Command::Serve(read_settings(alloc, values)?));
    }
    if name == "load" {
        return Ok(Command::Load(read_load(values)?));
    }
    Err(WordsError::Usage(UsageCause::Words))
}

// What the values of `serve` say.
#[tactic(auto, unfolding(crate::specs::Words::settings_of))]
fn read_settings(alloc: Global, matches: &ArgMatches) -> Result<Settings, WordsError>
    ensures { Gives result (settings_of (rows_of (found_of matches.now))) }
{
    let listen = listen_at(alloc, matches, "LISTEN")?;
    let plain = read_plain(matches)?;
    let allowed = allowed_at(alloc, matches, "PREFIX")?;
    let zones = zones_at(alloc, matches, "ZONE@PRIMARY")?;
    Ok(Settings {
        listen,
        upstream: plain.upstream,
        turns: plain.turns,
        workers: plain.workers as usize,
        askers: plain.askers as usize,
        cache: plain.cache,
        hold: plain.hold,
        connections: plain.connections,
        allowed,
        zones,
    })
}

// What those values of `serve` say that are one number, word or endpoint each.
#[tactic(auto, unfolding(crate::specs::Words::plain_settings_of))]
fn read_plain(matches: &ArgMatches) -> Result<PlainSettings, UsageCause>
    ensures { result ≡ plain_settings_of (rows_of (found_of matches.now)) }
{
    let upstream = upstream_at(matches, "UPSTREAM")?;
    let turns = turns_at(matches, "TURNS").ok_or(UsageCause::Value(Argument::Turns))?;
    let workers = number_at(matches, "WORKERS", WORKER_LIMIT as u32).ok_or(UsageCause::Value(
        Argument::Workers,
    ))?;
    let askers = askers_at(matches, "N").ok_or(UsageCause::Value(Argument::Askers))?;
    let cache = cache_at(matches, "ENTRIES").ok_or(UsageCause::Value(Argument::Cache))?;
    let hold = hold_at(matches, "SECONDS").ok_or(UsageCause::Value(Argument::Hold))?;
    let all = connections_at(matches, "CLIENTS", USUAL_CONNECTIONS).ok_or(UsageCause::Value(
        Argument::TcpClients,
    ))?;
    let of_client = connections_at(matches, "EACH", USUAL_PER_CLIENT).ok_or(UsageCause::Value(
        Argument::TcpPerClient,
    ))?;
    Ok(PlainSettings {
        upstream,
        turns,
        workers,
        askers,
        cache,
        hold,
        connections: ConnectionLimits { all, of_client },
    })
}

// What the values of `load` say.
#[tactic(auto, unfolding(crate::specs::Words::load_settings_of))]
fn read_load(matches: &ArgMatches) -> Result<LoadSettings, UsageCause>
    ensures { result ≡ load_settings_of (rows_of (found_of matches.now)) }
{
    let seed = count_at(matches, "SEED", SEED_LIMIT).ok_or(UsageCause::Value(Argument::Seed))?;
    let rules = count_at(matches, "RULES", RULE_LIMIT).ok_or(UsageCause::Value(Argument::Rules))?;
    let queries = count_at(matches, "QUERIES", QUERY_LIMIT).ok_or(UsageCause::Value(
        Argument::Queries,
    ))?;
    let workers = number_at(matches, "WORKERS", LOAD_WORKER_LIMIT).ok_or(UsageCause::Value(
        Argument::Workers,
    ))?;
    Ok(LoadSettings {
        seed,
        rules,
        queries,
        workers,
    })
}

// The endpoints that an argument has as its value.
fn listen_at(alloc: Global, matches: &ArgMatches, id: &str) -> Result<Endpoints, WordsError>
    ensures { Gives result (words_form.listen_at id.now (rows_of (found_of matches.now))) }
{
    match text_at(matches, id) {
        Some(text) => read_listen(alloc, text.as_bytes()),
        None => Err(WordsError::Usage(UsageCause::Words)),
    }
}

// The endpoint that an argument has as its value.
fn upstream_at(matches: &ArgMatches, id: &str) -> Result<Endpoint, UsageCause>
    ensures { result ≡ words_form.upstream_at id.now (rows_of (found_of matches.now)) }
{
    match text_at(matches, id) {
        Some(text) => match read_endpoint(text.as_bytes()) {
            Ok(endpoint) => Ok(endpoint),
            Err(why) => Err(UsageCause::Upstream(why)),
        },
        None => Err(UsageCause::Words),
    }
}

// Who may ask: the value of an option, or everyone where it isn't given.
fn allowed_at(alloc: Global, matches: &ArgMatches, id: &str) -> Result<AllowList, WordsError>
    ensures { Gives result (allowed_of (first_of id.now (rows_of (found_of matches.now)))) }
{
    match text_at(matches, id) {
        Some(text) => read_networks(alloc, text.as_bytes()),
        None => Ok(AllowList::everyone(alloc)),
    }
}

// The number from 1 to the limit that an argument has as its value.
fn number_at(matches: &ArgMatches, id: &str, most: u32) -> Option<u32>
    ensures { result
        ≡ value_at (values_form.number_to most) id.now (rows_of (found_of matches.now)) }
{
    number_to(text_at(matches, id)?.as_bytes(), most)
}

// The number of at most the limit that an argument has as its value.
fn count_at(matches: &ArgMatches, id: &str, most: u32) -> Option<u32>
    ensures { result
        ≡ value_at (values_form.count_to most) id.now (rows_of (found_of matches.now)) }
{
    count_to(text_at(matches, id)?.as_bytes(), most)
}

// How many arrivals are taken, that an argument has as its value.
fn turns_at(matches: &ArgMatches, id: &str) -> Option<Option<u32>>
    ensures { result ≡ value_at turns_of id.now (rows_of (found_of matches.now)) }
{
    read_turns(text_at(matches, id)?)
}

// How many workers ask the upstream: the value of an option, or the usual number where it isn't given.
fn askers_at(matches: &ArgMatches, id: &str) -> Option<u32>
    ensures { result ≡ askers_of (first_of id.now (rows_of (found_of matches.now))) }
{
    match text_at(matches, id) {
        Some(text) => number_to(text.as_bytes(), ASKER_LIMIT),
        None => Some(USUAL_ASKERS),
    }
}

// How many answers the cache holds at most: the value of an option, or the usual number where it isn't given.
fn cache_at(matches: &ArgMatches, id: &str) -> Option<u32>
    ensures { result ≡ cache_of (first_of id.now (rows_of (found_of matches.now))) }
{
    match text_at(matches, id) {
        Some(text) => number_between(text.as_bytes(), LEAST_CACHE, MOST_CACHE),
        None => Some(USUAL_CACHE),
    }
}

// For how many seconds the server waits for its zones: the value of an option, or not at all where it isn't given.
fn hold_at(matches: &ArgMatches, id: &str) -> Option<Option<u32>>
    ensures { result ≡ hold_of (first_of id.now (rows_of (found_of matches.now))) }
{
    match text_at(matches, id) {
        Some(text) => match count_to(text.as_bytes(), HOLD_LIMIT) {
            Some(seconds) => Some(Some(seconds)),
            None => None,
        },
        None => Some(None),
    }
}

// How many connections may be open: the value of an option, or the usual number where it isn't given.
fn connections_at(matches: &ArgMatches, id: &str, usual: u32) -> Option<u32>
    ensures { result
        ≡ connections_of usual (first_of id.now (rows_of (found_of matches.now))) }
{
    match text_at(matches, id) {
        Some(text) => number_to(text.as_bytes(), CONNECTION_LIMIT),
        None => Some(usual),
    }
}

// The value of an argument.
fn text_at<'a>(matches: &ArgMatches<'a>, id: &str) -> Option<&'a str>
    ensures { option_map (λ text. text.now) result
        ≡ first_of id.now (rows_of (found_of matches.now)) }
{
    matches.get_str(id)
}

// The zones that an argument has as its values.
fn zones_at(alloc: Global, matches: &ArgMatches, id: &str) -> Result<Zones, WordsError>
    ensures { Gives result (words_form.zones_at id.now (rows_of (found_of matches.now))) }
{
    match texts_at(matches, id) {
        Some(texts) => read_zones(alloc, texts),
        None => Err(WordsError::Usage(UsageCause::Words)),
    }
}

// The values of an argument.
fn texts_at<'m, 'a>(matches: &'m ArgMatches<'a>, id: &str) -> Option<&'m [&'a str]>
    ensures { option_map (λ texts. map (λ text. text.now) texts.now) result
        ≡ all_of id.now (rows_of (found_of matches.now)) }
{
    matches.get_strs(id)
}
