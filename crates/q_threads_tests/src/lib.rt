//! Tests of `q_ports` that no clause can stand for: that offers are taken, that turns go round the ports, that gauges go on, that
//! senders run at the same time and outlive the drain, and that a call whose allocation failed succeeds later. They start threads.
#![tactic(auto)]

#[cfg(test)]
mod blockade;
#[cfg(test)]
mod common;
#[cfg(test)]
mod crowd;
#[cfg(test)]
mod drive_walk;
#[cfg(test)]
mod endings;
#[cfg(test)]
mod meeting;
#[cfg(test)]
mod open_gate;
#[cfg(test)]
mod permits;
#[cfg(test)]
mod port_calls;
#[cfg(test)]
mod ports;
#[cfg(test)]
mod published;
#[cfg(test)]
mod readiness;
#[cfg(test)]
mod refused;
#[cfg(test)]
mod ring_lengths;
#[cfg(test)]
mod rows;
#[cfg(test)]
mod senders;
#[cfg(test)]
mod shaped;
#[cfg(test)]
mod shown;
#[cfg(test)]
mod signals;
#[cfg(test)]
mod traffic;
#[cfg(test)]
mod unbooked;
#[cfg(test)]
mod under_lock;
#[cfg(test)]
mod undrained;
#[cfg(test)]
mod watch;
