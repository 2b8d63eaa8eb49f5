//! The command set, as `clap` takes it.

ghost use Rattle.std.specs.Prelude.{◌≡◌, false, IfOk};
ghost use Rattle.clap.specs.Words.{app_of, rule_of, with_subcommand};
ghost use Rattle.clap.specs.declared.builder.command.Command.TheViews.{out-Command as fields_of};
ghost use Rattle.rpz_words.specs.Words.{load_app, one_value, option_value, rpz_app, serve_app, serve_options_app, some_values};

use clap::{Arg, ArgAction, Command};
use std::alloc::{AllocError, Global};

// An argument with one value.
fn value_arg<'a>(alloc: Global, id: &'a str) -> Arg<'a>
    ensures rule { rule_of result ≡ one_value id.entry.now }
    ensures local { result.global ≡ false }
{
    Arg::new(alloc, id).required(true).action(ArgAction::Set)
}

// An argument with one value or more, which takes what is left of the words.
fn list_arg<'a>(alloc: Global, id: &'a str) -> Arg<'a>
    ensures rule { rule_of result ≡ some_values id.entry.now }
    ensures local { result.global ≡ false }
{
    Arg::new(alloc, id)
        .required(true)
        .action(ArgAction::Append)
        .num_args(1..)
}

// An option `--name` with one value, which may be left out.
fn option_arg<'a>(alloc: Global, name: &'a str, id: &'a str) -> Arg<'a>
    ensures rule { rule_of result ≡ option_value name.entry.now id.entry.now }
    ensures local { result.global ≡ false }
{
    Arg::new(alloc, id).long(name).action(ArgAction::Set)
}

// `serve` with its options, and no argument yet.
fn serve_options<'a>(alloc: Global) -> Result<Command<'a>, AllocError>
    ensures app { IfOk result (λ c. app_of c ≡ serve_options_app) }
    ensures local { IfOk result (λ c. (fields_of c).has_globals ≡ false) }
{
    let askers = option_arg(alloc, "askers", "N");
    let with_askers = Command::new(alloc, "serve").arg(askers)?;
    let cache = option_arg(alloc, "cache", "ENTRIES");
    let with_cache = with_askers.arg(cache)?;
    let hold = option_arg(alloc, "hold", "SECONDS");
    let with_hold = with_cache.arg(hold)?;
    let clients = option_arg(alloc, "tcp-clients", "CLIENTS");
    let with_clients = with_hold.arg(clients)?;
    let each = option_arg(alloc, "tcp-per-client", "EACH");
    let with_each = with_clients.arg(each)?;
    let allow = option_arg(alloc, "allow", "PREFIX");
    let with_allow = with_each.arg(allow)?;
    Ok(with_allow)
}

// `serve [OPTION]... LISTEN UPSTREAM TURNS WORKERS ZONE@PRIMARY...`
fn serve_command<'a>(alloc: Global) -> Result<Command<'a>, AllocError>
    ensures app { IfOk result (λ c. app_of c ≡ serve_app) }
    ensures local { IfOk result (λ c. (fields_of c).has_globals ≡ false) }
{
    let options = serve_options(alloc)?;
    let listen = value_arg(alloc, "LISTEN");
    let with_listen = options.arg(listen)?;
    let upstream = value_arg(alloc, "UPSTREAM");
    let with_upstream = with_listen.arg(upstream)?;
    let turns = value_arg(alloc, "TURNS");
    let with_turns = with_upstream.arg(turns)?;
    let workers = value_arg(alloc, "WORKERS");
    let with_workers = with_turns.arg(workers)?;
    let zones = list_arg(alloc, "ZONE@PRIMARY");
    let with_zones = with_workers.arg(zones)?;
    Ok(with_zones)
}

// `load SEED RULES QUERIES WORKERS`
fn load_command<'a>(alloc: Global) -> Result<Command<'a>, AllocError>
    ensures app { IfOk result (λ c. app_of c ≡ load_app) }
    ensures local { IfOk result (λ c. (fields_of c).has_globals ≡ false) }
{
    let seed = value_arg(alloc, "SEED");
    let with_seed = Command::new(alloc, "load").arg(seed)?;
    let rules = value_arg(alloc, "RULES");
    let with_rules = with_seed.arg(rules)?;
    let queries = value_arg(alloc, "QUERIES");
    let with_queries = with_rules.arg(queries)?;
    let workers = value_arg(alloc, "WORKERS");
    let with_workers = with_queries.arg(workers)?;
    Ok(with_workers)
}

// The command with `serve` besides.
fn with_serve<'a>(alloc: Global, command: Command<'a>) -> Result<Command<'a>, AllocError>
    ensures { IfOk result (λ c. app_of c ≡ with_subcommand (app_of command.entry) serve_app.top) }
{
    match serve_command(alloc) {
        Ok(serve) => command.subcommand(serve),
        Err(error) => {
            drop(command);
            Err(error)
        }
    }
}

// The command with `load` besides.
fn with_load<'a>(alloc: Global, command: Command<'a>) -> Result<Command<'a>, AllocError>
    ensures { IfOk result (λ c. app_of c ≡ with_subcommand (app_of command.entry) load_app.top) }
{
    match load_command(alloc) {
        Ok(load) => command.subcommand(load),
        Err(error) => {
            drop(command);
            Err(error)
        }
    }
}

/// `rpz replay`, `rpz serve` and `rpz load`.
pub(crate) fn rpz_command<'a>(alloc: Global) -> Result<Command<'a>, AllocError>
    ensures { IfOk result (λ c. app_of c ≡ rpz_app) }
{
    let replay = Command::new(alloc, "replay");
    let with_replay = Command::new(alloc, "rpz").subcommand(replay)?;
    let with_serve = with_serve(alloc, with_replay)?;
    with_load(alloc, with_serve)
}
