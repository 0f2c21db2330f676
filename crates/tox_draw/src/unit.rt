//! Units, and values in them.
ghost use Rattle.std.specs.Prelude.{◌≡◌, ◌<◌, OnOk};
ghost use Rattle.tox_draw.specs.Adding.{AddsText};
ghost use Rattle.tox_draw.specs.Units.{byte_unit, figure_in_unit, fraction_text, quantity, time_unit, unit_name, unit_size};

use std::alloc::AllocError;

/// A unit of time or of bytes.
#[derive(Clone, Copy)]
pub(crate) enum Unit {
    Micros,
    Millis,
    Seconds,
    Bytes,
    Kilobytes,
    Megabytes,
    Gigabytes,
}

impl Unit {
    /// The greatest unit of time that isn't above a value in microseconds.
    pub(crate) fn of_time(micros: u64) -> Unit
        ensures { result ≡ time_unit micros }
    {
        match micros {
            1_000_000.. => Unit::Seconds,
            1_000.. => Unit::Millis,
            _ => Unit::Micros,
        }
    }

    /// The greatest unit of bytes that isn't above a count.
    pub(crate) fn of_bytes(count: u64) -> Unit
        ensures { result ≡ byte_unit count }
    {
        match count {
            1_000_000_000.. => Unit::Gigabytes,
            1_000_000.. => Unit::Megabytes,
            1_000.. => Unit::Kilobytes,
            _ => Unit::Bytes,
        }
    }

    /// Its size in microseconds or bytes.
    fn size(self) -> u64
        ensures { result ≡ unit_size self }
    {
        match self {
            Unit::Micros | Unit::Bytes => 1,
            Unit::Millis | Unit::Kilobytes => 1_000,
            Unit::Seconds | Unit::Megabytes => 1_000_000,
            Unit::Gigabytes => 1_000_000_000,
        }
    }

    pub(crate) fn name(self) -> &'static str
        ensures { result.now ≡ unit_name self }
    {
        match self {
            Unit::Micros => "us",
            Unit::Millis => "ms",
            Unit::Seconds => "s",
            Unit::Bytes => "B",
            Unit::Kilobytes => "KB",
            Unit::Megabytes => "MB",
            Unit::Gigabytes => "GB",
        }
    }
}

#[tactic(auto, unfolding(crate::specs::Units::figure_in_unit))]
/// Adds the figure of a value in a unit: below 1000 with up to three digits behind the point.
pub(crate) fn push_figure(text: &mut String, value: u64, unit: Unit) -> Result<(), AllocError>
    ensures { OnOk result (AddsText text.old text.new (figure_in_unit value unit)) }
{
    let size = unit.size();
    let whole = value / size;
    let thousandths = value % size * 1000 / size;
    write!(text, "{whole}")?;
    if whole < 1000 && thousandths != 0 {
        push_fraction(text, thousandths)?;
    }
    Ok(())
}

#[tactic(auto, unfolding(crate::specs::Units::fraction_text))]
/// Adds a point and thousandths, without the zeros at their end.
fn push_fraction(text: &mut String, thousandths: u64) -> Result<(), AllocError>
    requires { thousandths < 1000 }
    ensures { OnOk result (AddsText text.old text.new (fraction_text thousandths)) }
{
    let first = thousandths / 100;
    let second = thousandths / 10 % 10;
    let third = thousandths % 10;
    if third != 0 {
        write!(text, ".{first}{second}{third}")
    } else if second != 0 {
        write!(text, ".{first}{second}")
    } else {
        write!(text, ".{first}")
    }
}

#[tactic(auto, unfolding(crate::specs::Units::quantity))]
/// Adds the quantity of a value: its figure in a unit, and the unit's name.
pub(crate) fn push_quantity(text: &mut String, value: u64, unit: Unit) -> Result<(), AllocError>
    ensures { OnOk result (AddsText text.old text.new (quantity value unit)) }
{
    push_figure(text, value, unit)?;
    let name = unit.name();
    write!(text, " {name}")
}
