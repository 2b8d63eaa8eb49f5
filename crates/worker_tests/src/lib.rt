//! Tests of the published policy among threads and of workers, and nothing else. They show what no proof can: that calls succeed if
//! memory suffices, and that threads follow each other's publications.
#![tactic(auto)]

#[cfg(test)]
mod answers;
#[cfg(test)]
mod asserts;
#[cfg(test)]
mod caches;
#[cfg(test)]
mod cases;
#[cfg(test)]
mod faults;
#[cfg(test)]
mod items;
#[cfg(test)]
mod messages;
#[cfg(test)]
mod old_zones;
#[cfg(test)]
mod passing;
#[cfg(test)]
mod publishing;
#[cfg(test)]
mod request_limits;
#[cfg(test)]
mod request_threads;
#[cfg(test)]
mod requests;
#[cfg(test)]
mod runs;
#[cfg(test)]
mod stores;
#[cfg(test)]
mod test_inlet;
#[cfg(test)]
mod workers;
