ghost use Rattle.std.specs.Prelude.{◌≡◌};
ghost use Rattle.qtree_c.specs.answers.Nodes.{told_of};

use q_model::{ClassKind, ClassView};

/// A class, with what a drr keeps of it, as C has it.
#[repr(C)]
#[derive(Clone, Copy, Drop)]
pub struct CClassView {
    /// What an active class of a drr may send before the next quantum, in bytes; else 0.
    pub deficit: u64,
    /// That of a class of a drr, in bytes; else 0.
    pub quantum: u32,
    /// That of its qdisc: 3 prio, 4 tbf, 5 drr.
    pub kind: u32,
    pub major: u16,
    pub minor: u16,
    /// 1 for a class of a drr that is active, which is that packets wait there; else 0.
    pub active: u8,
}

impl CClassView {
    /// This class as C has it.
    pub fn of(class: &ClassView) -> CClassView
        ensures { result ≡ told_of class.now.class class.now.kind }
    {
        let (kind, quantum, active, deficit) = match class.kind {
            ClassKind::Prio => (3, 0, 0, 0),
            ClassKind::Tbf => (4, 0, 0, 0),
            ClassKind::Drr {
                quantum,
                deficit: None,
            } => (5, quantum, 0, 0),
            ClassKind::Drr {
                quantum,
                deficit: Some(deficit),
            } => (5, quantum, 1, deficit),
        };
        CClassView {
            deficit,
            quantum,
            kind,
            major: class.class.major.major(),
            minor: class.class.minor.number(),
            active,
        }
    }
}
