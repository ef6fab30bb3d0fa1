ghost use Rattle.std.specs.Prelude.{◌≡◌, length};
ghost use Rattle.qtree_c.specs.device.SettingUp.{no_report};

use q_setup::Report;

/// What setting up a device came to, as C has it.
#[repr(C)]
#[derive(Clone, Copy, Drop)]
pub struct CReport {
    pub lines: u64,
    pub added: u64,
    pub changed: u64,
    pub deleted: u64,
    pub undone: usize,
}

impl CReport {
    /// Where nothing was read, and nothing done.
    pub fn nothing() -> CReport
        ensures { result ≡ no_report }
    {
        CReport {
            lines: 0,
            added: 0,
            changed: 0,
            deleted: 0,
            undone: 0,
        }
    }

    /// This report.
    pub fn of(report: &Report) -> CReport
        ensures { result ≡ record { lines = report.now.lines; added = report.now.added; changed = report.now.changed; deleted = report.now.deleted; undone = length report.now.undone.items } }
    {
        CReport {
            lines: report.lines,
            added: report.added,
            changed: report.changed,
            deleted: report.deleted,
            undone: report.undone.len(),
        }
    }
}
