//! Each discipline in a file of its own. A node sends each call on to that of its discipline.

pub(crate) mod drr;
pub(crate) mod fifo;
pub(crate) mod fq_codel;
pub(crate) mod prio;
pub(crate) mod tbf;
