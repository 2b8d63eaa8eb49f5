//! Reads the words of a command line: a command with its settings, a page of help, or the cause of a usage error.
#![tactic(auto)]

mod allowed;
mod command;
mod command_set;
mod cutting;
mod endpoint_text;
mod endpoints;
pub mod laws;
mod pages;
mod reading;
mod settings;
mod usage_cause;
mod values;
mod words_error;
mod zone_words;
mod zones;

pub use command::Command;
pub use endpoint_text::EndpointText;
pub use endpoints::Endpoints;
pub use pages::{Page, USAGE};
pub use reading::read_words;
pub use settings::{
    ASKER_LIMIT, CONNECTION_LIMIT, LEAST_CACHE, LOAD_WORKER_LIMIT, LoadSettings, MOST_CACHE,
    QUERY_LIMIT, RULE_LIMIT, Settings, USUAL_ASKERS, USUAL_CACHE, USUAL_CONNECTIONS,
    USUAL_PER_CLIENT, WORKER_LIMIT,
};
pub use usage_cause::{
    AllowFault, Argument, EndpointFault, ListFault, UsageCause, ZoneWordFault, ZonesFault,
};
pub use words_error::WordsError;
pub use zones::{ZoneSetting, Zones};
