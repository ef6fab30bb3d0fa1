//! What a refusal means, and what can be done.
use crate::word_place::WordPlace;
use q_model::Refusal;

/// The sentences on a refusal, in a line with this head.
pub fn refusal_sentence(refusal: Refusal, head: WordPlace) -> &'static str {
    match head {
        WordPlace::ClassAdd | WordPlace::ClassChange | WordPlace::ClassDel => of_class(refusal),
        WordPlace::FilterAdd | WordPlace::FilterDel => of_filter(refusal),
        _ => of_qdisc(refusal),
    }
}

/// In a line on a qdisc.
fn of_qdisc(refusal: Refusal) -> &'static str {
    match refusal {
        Refusal::NoParent => {
            "no qdisc has the major number of this parent. Add that qdisc first; tc qdisc show lists those that are there."
        }
        Refusal::Exists => {
            "a qdisc was added there before. Change it by tc qdisc change, or remove it by tc qdisc del first."
        }
        Refusal::NoQdisc => {
            "no qdisc that was added has this place and this handle. tc qdisc show lists them; one of handle 0 came by itself, and add replaces it."
        }
        Refusal::HandleTaken => {
            "another qdisc has this handle. Choose one that tc qdisc show does not list."
        }
        Refusal::NotClassful => {
            "the parent is a pfifo, bfifo or fq_codel, which have no classes. Choose a class of a prio, a tbf or a drr."
        }
        Refusal::NoClass => {
            "the parent has no such class: a prio has one for each band, a tbf the class 1, and a drr those that tc class add adds."
        }
        Refusal::Busy => {
            "a filter leads to a band that would go. Remove the filter first by tc filter del."
        }
        Refusal::CannotChange => {
            "the qdisc is of another kind, or has another number of flows. Remove it by tc qdisc del, and add it anew."
        }
        Refusal::SmallBurst => {
            "the burst is below the mtu and below the burst that the tbf has. Give at least one of them."
        }
        other => of_any(other),
    }
}

/// In a line on a class.
fn of_class(refusal: Refusal) -> &'static str {
    match refusal {
        Refusal::NoParent => {
            "the parent and the class id differ in their major number. A class is one of its parent."
        }
        Refusal::Exists => "the drr has this class. Change it by tc class change.",
        Refusal::NoQdisc => {
            "no qdisc has the major number of this class id. Add a drr of this handle first."
        }
        Refusal::NotClassful => {
            "the qdisc is a pfifo, bfifo or fq_codel, which have no classes. A drr has them."
        }
        Refusal::NoClass => "the drr has no such class. tc class show lists those that are there.",
        Refusal::Busy => {
            "a filter leads to this class. Remove the filter first by tc filter del."
        }
        Refusal::CannotChange => {
            "the classes of a prio or a tbf come with it. Those of a drr alone can be added, changed and removed."
        }
        other => of_any(other),
    }
}

/// In a line on a filter.
fn of_filter(refusal: Refusal) -> &'static str {
    match refusal {
        Refusal::NoQdisc => {
            "no qdisc has the handle of this parent. Add that qdisc first; tc qdisc show lists those that are there."
        }
        Refusal::NotClassful => "the qdisc is no prio and no drr, which alone take filters.",
        Refusal::NoClass => {
            "the qdisc has no such class, or the class id has another major number. tc class show lists the classes."
        }
        Refusal::NoFilter => {
            "no filter of the qdisc has this prio. tc filter show lists those that are there."
        }
        other => of_any(other),
    }
}

/// What means the same in every line.
fn of_any(refusal: Refusal) -> &'static str {
    match refusal {
        Refusal::TooDeep => {
            "a qdisc would stand deeper than 8 below the device. Remove a level, or choose a parent further up."
        }
        Refusal::TooMany => {
            "a device has 256 qdiscs at most, those counted that come by themselves, and a qdisc 256 filters. Remove some first."
        }
        Refusal::Memory => {
            "memory was refused, and nothing has changed. The same line may succeed once memory is free."
        }
        _ => "the tree does not allow it, and has not changed.",
    }
}
