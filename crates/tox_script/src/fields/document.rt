//! The fields of a script's document.
ghost use Rattle.std.specs.Prelude.{◌≡◌, map, IfOk, IfErr, Ok, Err};
ghost use Rattle.toml.specs.View.{view};
ghost use Rattle.tox_script.specs.fields.Document.{document_fields, document_keys};
ghost use Rattle.tox_script.specs.Views.{document_view};

use crate::fault::Field;
use crate::fields::{has_only, tables_of};
use crate::settings::{Settings, settings_of};
use crate::version::Version;
use toml::Value;

/// The fields of a document, lent from it. The rules are tables.
#[derive(Clone, Copy)]
pub(crate) struct DocumentFields<'a> {
    pub(crate) settings: Settings,
    pub(crate) rules: &'a [Value],
}

impl<'a> DocumentFields<'a> {
    /// The fields, or the first that isn't as it must be.
    pub(crate) fn read(document: &'a Value) -> Result<DocumentFields<'a>, Field>
        ensures ok { IfOk result
            (λ fields. document_fields (view document.now) ≡ Ok (document_view fields)) }
        ensures err { IfErr result (λ field. document_fields (view document.now) ≡ Err field) }
    {
        let settings = settings_of(document)?;
        let rules = tables_of(document, "rule", Field::Rule)?;
        if !has_only(document, document_keys(settings.version)) {
            return Err(Field::Unknown);
        }
        Ok(DocumentFields { settings, rules })
    }
}

fn document_keys(version: Version) -> &'static [&'static str]
    ensures { map (λ key. key.now) result.now ≡ document_keys version }
{
    match version {
        Version::One => &["version", "rule"],
        Version::Two => &["version", "lanes", "rule"],
    }
}
