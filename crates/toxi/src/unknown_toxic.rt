//! A toxic that `toxi forecast --where` asks for, and that there isn't.
use crate::kept_files::FilesRead;
use std::alloc::{AllocError, Global};
use tox_proxy::{ForecastRequest, VisibleName, nearest};
use tox_script::{Script, read_script};
use tox_time::Stream;

/// Tells that no toxic of the script has the name that was asked for, and the nearest one.
pub fn tell_unknown_toxic<'x, R: Eprint + AllocGlobal>(
    rt: &R,
    request: &'x ForecastRequest<'x>,
    files: &'x FilesRead,
) {
    let Some(name) = request.named else {
        return;
    };
    let Some(script) = files.named(request.script) else {
        return;
    };
    let Ok(script) = read_script(rt.alloc(), script.bytes) else {
        return;
    };
    let Ok(names) = names_of(rt.alloc(), &script) else {
        return;
    };
    if names.iter().any(|other| *other == name) {
        return;
    }
    let shown = VisibleName(name);
    let _ = match nearest(rt.alloc(), name, &names) {
        Ok(Some(near)) => {
            let near = VisibleName(near);
            eprintln!(rt; "toxi: warning: no toxic has the name {shown} ({near}?)")
        }
        _ => eprintln!(rt; "toxi: warning: no toxic has the name {shown}"),
    };
}

/// The names of the toxics of all rules.
fn names_of(alloc: Global, script: &Script) -> Result<Vec<&str>, AllocError> {
    let mut names = Vec::new(alloc);
    for rule in 0..script.rule_count() {
        for stream in [Stream::Upstream, Stream::Downstream] {
            for name in script.rule_chains(Some(rule)).on(stream).names() {
                names.push(name.as_str())?;
            }
        }
    }
    Ok(names)
}
