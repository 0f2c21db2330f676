//! What a document says for all of its rules.
ghost use Rattle.std.specs.Prelude.{◌≡◌};
ghost use Rattle.toml.specs.View.{view};
ghost use Rattle.tox_script.specs.Settings.{lanes_in, lanes_of, settings_of, written_lanes_of, version_in, version_of};

use crate::fault::Field;
use crate::fields::whole;
use crate::version::Version;
use toml::Value;
use tox_words::Lanes;

/// The version of a script, and the lanes of its chains.
#[derive(Clone, Copy)]
pub(crate) struct Settings {
    pub(crate) version: Version,
    pub(crate) lanes: Lanes,
}

/// The settings of a document, or the first that isn't as it must be.
pub(crate) fn settings_of(document: &Value) -> Result<Settings, Field>
    ensures { result ≡ settings_of (view document.now) }
{
    let version = version_of(document)?;
    let lanes = lanes_of(version, document)?;
    Ok(Settings { version, lanes })
}

/// The version: 1 if absent.
fn version_of(document: &Value) -> Result<Version, Field>
    ensures { result ≡ version_of (view document.now) }
{
    match document.get("version") {
        None => Ok(Version::One),
        Some(value) => version_in(value).ok_or(Field::Version),
    }
}

fn version_in(value: &Value) -> Option<Version>
    ensures { result ≡ version_in (view value.now) }
{
    match whole(value)? {
        1 => Some(Version::One),
        2 => Some(Version::Two),
        _ => None,
    }
}

/// The lanes: always 16 in version 1; in version 2 32 if absent.
fn lanes_of(version: Version, document: &Value) -> Result<Lanes, Field>
    ensures { result ≡ lanes_of version (view document.now) }
{
    match version {
        Version::One => Ok(Lanes::Sixteen),
        Version::Two => written_lanes_of(document),
    }
}

fn written_lanes_of(document: &Value) -> Result<Lanes, Field>
    ensures { result ≡ written_lanes_of (view document.now) }
{
    match document.get("lanes") {
        None => Ok(Lanes::ThirtyTwo),
        Some(value) => lanes_in(value).ok_or(Field::Lanes),
    }
}

fn lanes_in(value: &Value) -> Option<Lanes>
    ensures { result ≡ lanes_in (view value.now) }
{
    match whole(value)? {
        16 => Some(Lanes::Sixteen),
        32 => Some(Lanes::ThirtyTwo),
        _ => None,
    }
}
