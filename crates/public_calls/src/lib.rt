//! Tests of public calls that the program does not make, and of what no clause says: a vector or a row that a reader
//! worked out by hand for each, and that a call answers otherwise than want of memory where there is memory. They stand
//! together, since a crate with tests is proved twice; what the built program shows stands in the scripts under tests/.
//! There is no code here.
#![tactic(auto)]

#[cfg(test)]
mod callers;
#[cfg(test)]
mod cores;
#[cfg(test)]
mod devices;
#[cfg(test)]
mod gates;
#[cfg(test)]
mod histories;
#[cfg(test)]
mod lists;
#[cfg(test)]
mod orders;
#[cfg(test)]
mod replies;
#[cfg(test)]
mod reports;
#[cfg(test)]
mod runs;
#[cfg(test)]
mod scripts;
#[cfg(test)]
mod serial_runs;
#[cfg(test)]
mod thread_runs;
#[cfg(test)]
mod workloads;
