/// The kinds of qdisc (tc(8)).
#[derive(Clone, Copy)]
pub enum KindName {
    Pfifo,
    Bfifo,
    Prio,
    Tbf,
    Drr,
    FqCodel,
}
