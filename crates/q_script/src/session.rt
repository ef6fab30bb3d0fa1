ghost use Rattle.std.specs.Prelude.{◌≡◌, ◌≤◌, ◌<◌, ◌+◌, ◌^◌, ℕ, Bool, List, OnOk, OnErr, IfErr};
ghost use Rattle.q_show.specs.Writes.{MayWrite, WriteFailed};
ghost use Rattle.q_script.specs.Step.{Effect, HasEffect, FailsWithin};

use crate::output::Output;
use q_show::{Target, WriteFault};
use std::io::Write;

/// What runs the lines of a script, one after another.
///
/// `effect` says what a line writes and what it leaves, by whether an allocation fails at it, its number, its bytes and the
/// session before it; `packets` how many packets were numbered, and `not_done` how many lines had a fault or were refused.
pub trait Session {
    ghost effect: { Bool → ℕ → List ℕ → Self → Effect Self };

    ghost packets: { Self → ℕ };

    ghost not_done: { Self → ℕ };

    /// Runs the line of this number, without its newline. What it writes goes to the output, or through it to the target.
    /// An error comes only from the target, which is then written no more.
    fn run_line<W: Write>(
        &mut self,
        number: u64,
        line: &[u8],
        output: &mut Output,
        target: &mut Target<'_, W>,
    ) -> Result<(), WriteFault>
        requires few { packets self.old + 1 < 2 ^ 32 }
        requires fewer { not_done self.old < number }
        requires going { MayWrite target.old.writes }
        ensures same_writer { target.new.writer.ghost_name ≡ target.old.writer.ghost_name }
        ensures few { OnOk result (packets self.new ≤ packets self.old + 1) }
        ensures fewer { OnOk result (not_done self.new ≤ not_done self.old + 1) }
        ensures effect { OnOk result (HasEffect effect number line.now self.old self.new
            (W.contents target.old.writer.now) (W.contents target.new.writer.now) output.old output.new) }
        ensures err { OnErr result (FailsWithin effect number line.now self.old
            (W.contents target.old.writer.now) (W.contents target.new.writer.now) output.old) }
        ensures going { OnOk result (MayWrite target.new.writes) }
        ensures failed { IfErr result (λ fault. WriteFailed target.new.writes fault.kind) };

    /// How many lines had a fault or were refused.
    fn not_done(&self) -> u64
        ensures { result ≡ not_done self.now };
}
