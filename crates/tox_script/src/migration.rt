//! Scripts of version 1 as scripts of version 2.
ghost use Rattle.std.specs.Prelude.{◌≡◌, ◌≤◌, true, string_bytes, IsTrue, IfOk, IfErr, Some, Ok, Err};
ghost use Rattle.std.specs.Str.{is_utf8};
ghost use Rattle.toml.specs.Data.{members_depth, members_have_valid_dates};
ghost use Rattle.toml.specs.Parse.{parse_document};
ghost use Rattle.toml.specs.View.{table_view, view};
ghost use Rattle.tox_script.specs.Migrated.{IsMigrated, old_script_of, rules_in, version_2};
ghost use Rattle.tox_script.specs.ScriptFaults.{IsScriptFault};
ghost use Rattle.tox_script.specs.declared.fault.ScriptFault.TheVariants.{OutOfMemory};

use crate::ascending::ascends;
use crate::fault::ScriptFault;
use crate::script::{read_toml, script_in};
use crate::version::Version;
use std::alloc::{AllocError, Global};
use toml::ser::Error;
use toml::{Table, Value};

/// A script of version 2 that gives each connection what a script of version 1 gives it: the same chains of 16 lanes, and
/// the same names of toxics.
///
/// # Errors
///
/// The first fault of [`read_script`](crate::read_script), and then [`ScriptFault::AlreadyVersion2`] where the script has
/// version 2. Out of memory may stand in place of any of them, but for bytes that are not UTF-8.
pub fn migrate(alloc: Global, bytes: &[u8]) -> Result<String, ScriptFault>
    ensures ok { IfOk result (λ text. IsMigrated bytes.now (string_bytes text)) }
    ensures err { IfErr result (IsScriptFault (old_script_of bytes.now)) }
    ensures memory { result ≡ Err OutOfMemory → IsTrue (is_utf8 bytes.now) }
{
    let document = read_toml(alloc, bytes)?;
    let script = script_in(alloc, &document)?;
    match script.version() {
        Version::One => {
            let rules = rules_in(alloc, &document)?;
            ascends(&rules);
            let migrated = version_2(alloc, rules)?;
            print(alloc, &migrated)
        }
        Version::Two => Err(ScriptFault::AlreadyVersion2),
    }
}

/// A copy of the rules of a document.
fn rules_in(alloc: Global, document: &Value) -> Result<Value, AllocError>
    ensures { IfOk result (λ rules. view rules ≡ rules_in (view document.now)) }
{
    match document.get("rule") {
        Some(rules) => rules.clone(),
        None => Ok(Value::Array(Vec::new(alloc))),
    }
}

/// A document of version 2 with 16 lanes and these rules.
fn version_2(alloc: Global, rules: Value) -> Result<Table, ScriptFault>
    ensures ok { IfOk result (λ document. table_view document ≡ version_2 (view rules)) }
    ensures err { IfErr result (λ fault. fault ≡ OutOfMemory) }
{
    let mut document = Table::new(alloc);
    let version = String::from_str(alloc, "version")?;
    drop(document.insert(version, Value::Integer(2))?);
    let rule = String::from_str(alloc, "rule")?;
    drop(document.insert(rule, rules)?);
    let lanes = String::from_str(alloc, "lanes")?;
    drop(document.insert(lanes, Value::Integer(16))?);
    Ok(document)
}

/// The text of a document, which reads back.
fn print(alloc: Global, document: &Table) -> Result<String, ScriptFault>
    requires deep { members_depth (table_view document.now) ≤ 80 }
    requires dates { members_have_valid_dates (table_view document.now) ≡ true }
    ensures ok { IfOk result
        (λ text. parse_document (string_bytes text) ≡ Some (table_view document.now)) }
    ensures err { IfErr result (λ fault. fault ≡ OutOfMemory) }
{
    match toml::table_to_string(alloc, document) {
        Ok(text) => Ok(text),
        Err(Error::OutOfMemory) => Err(ScriptFault::OutOfMemory),
        Err(Error::DateInvalid) => unreachable!(),
    }
}
