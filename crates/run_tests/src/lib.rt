//! Tests of whole runs, and nothing else: servers over wires in memory of which calls fail, and scripts whose reads and writes fail. They
//! show what neither a proof nor a scenario can: that calls succeed if memory suffices, and that threads meet. What goes over sockets
//! tools/loopback.py tries.
#![tactic(auto)]

#[cfg(test)]
mod alone;
#[cfg(test)]
mod asserts;
#[cfg(test)]
mod cases;
#[cfg(test)]
mod outside;
#[cfg(test)]
mod reading;
#[cfg(test)]
mod replays;
#[cfg(test)]
mod runs;
