ghost use Rattle.std.specs.Prelude.{◌≡◌, IfOk, IsOk};
ghost use Rattle.q_drive.specs.SetUp.{IsUnused};
ghost use Rattle.q_session.specs.Session.{opened};

use crate::set_up_line::{SetUpLine, read_set_up_line};
use q_device::Device;
use q_script::{Output, RunSettings, Session};
use q_session::{DeviceSession, Notes};
use q_show::{Target, WriteFault};
use std::alloc::{AllocError, Global};
use std::io::Write;
use std::marker::Model;

/// The session in which tc's lines set up the device, before the senders run. Nothing arrives in it, which the type keeps.
#[derive(Drop)]
pub struct SetUp {
    session: DeviceSession,
}

impl Model for SetUp {
    ghost use Rattle.q_drive.specs.SetUp.{IsUnused};
    ghost use Rattle.q_session.specs.Session.{SessionSeen};
    ghost use Rattle.q_session.specs.SessionCode.{session_code};

    ghost Value = { SessionSeen };

    ghost coded = { session_code };

    ghost view = { λ s. s.session };

    ghost invariant = { λ s. IsUnused s.session };
}

impl SetUp {
    /// A new device with these settings.
    ///
    /// # Errors
    ///
    /// `AllocError` if the allocation of the recorder fails.
    pub fn open(alloc: Global, settings: &RunSettings) -> Result<SetUp, AllocError>
        ensures new { IfOk result (λ s. s ≡ opened settings.now) }
        ensures succeeds { settings.now.recorder ≡ 0 → IsOk result }
    {
        Ok(SetUp {
            session: DeviceSession::open(alloc, settings)?,
        })
    }

    /// Takes what was noted of the lines, with how many were not done, and begins these notes. The session stays as it is.
    pub fn exchange_notes(&mut self, notes: &mut Notes)
        ensures same { self.new ≡ self.old }
        ensures not_done { notes.new ≡ self.old.state.not_done }
    {
        self.session.exchange_notes(notes);
    }

    /// The device, when its lines were run.
    pub fn into_device(self) -> Device
        ensures device { result.device ≡ self.state.device }
        ensures unused { IsUnused self }
    {
        self.session.into_device()
    }
}

impl Session for SetUp {
    ghost use Rattle.q_drive.specs.SetUp.{effect_of};

    ghost effect = { effect_of };

    ghost packets = { λ s. 0 };

    ghost not_done = { λ s. s.state.not_done };

    fn run_line<W: Write>(
        &mut self,
        number: u64,
        line: &[u8],
        output: &mut Output,
        target: &mut Target<'_, W>,
    ) -> Result<(), WriteFault> {
        match read_set_up_line(line) {
            Ok(SetUpLine::Blank) => Ok(()),
            Ok(SetUpLine::Show(show)) => self.session.show(show, output, target),
            Ok(SetUpLine::Tc(command)) => {
                output.make_room(target)?;
                self.session.command(number, line, command, output);
                Ok(())
            }
            Err(fault) => {
                output.make_room(target)?;
                self.session.fault(number, line, fault, output);
                Ok(())
            }
        }
    }

    fn not_done(&self) -> u64 {
        self.session.not_done()
    }
}
