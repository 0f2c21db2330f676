//! What a toxicity means where not every link meets a toxic: 30 is 3.0 % of the links.
use crate::kept_files::FilesRead;
use crate::notices::send_notice;
use std::alloc::{AllocError, Global};
use std::sync::Wait;
use tox_defs::MAX_TOXICITY;
use tox_proxy::{ForecastRequest, NoticeChannel, PickRequest, VisibleName};
use tox_script::{NamedChain, Script, read_script};
use tox_time::Stream;

/// How many toxicities `serve` tells.
const MAX_SENT: usize = 20;

/// Tells the toxicities of the rule that a connection meets.
pub fn tell_of_pick<R: Eprint + AllocGlobal>(rt: &R, request: &PickRequest<'_>, files: &FilesRead) {
    if let Some(text) = text_of_pick(rt.alloc(), request, files) {
        tell(rt, text.as_str());
    }
}

/// Tells the toxicities of the rules of a proxy that the forecast's connections may meet.
pub fn tell_of_forecast<R: Eprint + AllocGlobal>(
    rt: &R,
    request: &ForecastRequest<'_>,
    files: &FilesRead,
) {
    if let Some(text) = text_of_forecast(rt.alloc(), request, files) {
        tell(rt, text.as_str());
    }
}

/// Sends the first toxicities of what is served. What can't be sent is no reason not to serve.
pub fn send_toxicities<R: AllocGlobal + Wait>(rt: &R, script: &Script, channel: &NoticeChannel) {
    let Some(text) = text_of_script(rt.alloc(), script) else {
        return;
    };
    for line in text.lines().take(MAX_SENT) {
        send_notice(rt, channel, &line);
    }
}

fn tell<R: Eprint>(rt: &R, text: &str) {
    for line in text.lines() {
        let _ = eprintln!(rt; "toxi: {line}");
    }
}

fn text_of_pick(alloc: Global, request: &PickRequest<'_>, files: &FilesRead) -> Option<String> {
    let script = read_script(alloc, files.named(request.script)?.bytes).ok()?;
    let rule = script.index(alloc, request.proxy).ok()?.rule(request.conn)?;
    let mut text = String::new(alloc);
    add_rule(&mut text, &script, rule).ok()?;
    Some(text)
}

fn text_of_forecast(
    alloc: Global,
    request: &ForecastRequest<'_>,
    files: &FilesRead,
) -> Option<String> {
    let script = read_script(alloc, files.named(request.script)?.bytes).ok()?;
    let mut text = String::new(alloc);
    for rule in 0..script.rule_count() {
        let scope = script.scope(rule)?;
        if scope.proxy == request.proxy && scope.first <= request.links {
            add_rule(&mut text, &script, rule).ok()?;
        }
    }
    Some(text)
}

/// The toxicities of all rules, until there are enough.
fn text_of_script(alloc: Global, script: &Script) -> Option<String> {
    let mut text = String::new(alloc);
    for rule in 0..script.rule_count() {
        if MAX_SENT <= text.lines().count() {
            break;
        }
        add_rule(&mut text, script, rule).ok()?;
    }
    Some(text)
}

/// Adds a line for each toxic of a rule that not every link meets.
fn add_rule(text: &mut String, script: &Script, rule: usize) -> Result<(), AllocError> {
    let chains = script.rule_chains(Some(rule));
    let number = rule.saturating_add(1);
    add_chain(text, number, chains.on(Stream::Upstream))?;
    add_chain(text, number, chains.on(Stream::Downstream))
}

fn add_chain(text: &mut String, rule: usize, toxics: &NamedChain) -> Result<(), AllocError> {
    for (name, entry) in toxics.names().iter().zip(toxics.chain().entries()) {
        let toxicity = entry.toxicity;
        if toxicity < MAX_TOXICITY {
            let shown = VisibleName(name.as_str());
            let (percent, tenth) = (toxicity / 10, toxicity % 10);
            write!(
                text,
                "rule {rule}: {shown} has toxicity {toxicity} ({percent}.{tenth} %)\n"
            )?;
        }
    }
    Ok(())
}
