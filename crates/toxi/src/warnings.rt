//! What `toxi check` would say of what is served, before anything listens.
ghost use Rattle.std.specs.Prelude.{◌≡◌, false};

use crate::output::PatientOutput;
use crate::shutdown::Shutdown;
use std::sync::Wait;
use tox_proxy::{JsonField, LineForm, LogBytes, PrintPickFault, Setup, print_check, write_object};
use tox_time::{EndFault, Real, Sink};

/// Prints each warning of what is set up as a line.
pub fn print_warnings<R: Print + AllocGlobal + Wait>(
    rt: &R,
    setup: &Setup,
    form: LineForm,
    shutdown: &Shutdown,
) -> Result<(), PrintPickFault> {
    let mut writer = Real::new(PatientOutput::new(rt, shutdown));
    match form {
        LineForm::Words => {
            print_check(rt.alloc(), &mut writer, setup, false)?;
        }
        LineForm::Json => {
            let mut text = LogBytes::new(rt.alloc());
            print_check(rt.alloc(), &mut text, setup, false)?;
            if write_objects(&mut writer, text.bytes()).is_err() {
                return Err(PrintPickFault::WriteFault);
            }
        }
    }
    Ok(())
}

/// Writes each line of a text as an object.
fn write_objects<W: Sink>(writer: &mut W, text: &[u8]) -> Result<(), EndFault>
    requires { W.failed writer.old ≡ false }
{
    let Ok(text) = str::from_utf8(text) else {
        return Ok(());
    };
    for line in text.lines() {
        write_object(writer, "warning", &[JsonField::text("text", line)])?;
    }
    Ok(())
}
