//! The commands of toxiproxy-cli, and what there is in their place.
use std::alloc::AllocError;

/// Adds what there is in place of a command of toxiproxy-cli.
pub(crate) fn add_foreign_command(text: &mut String, name: &str) -> Result<(), AllocError> {
    match stand_in(name) {
        Some(words) => write!(
            text,
            "  `{name}` is a command of toxiproxy-cli, and docs/FROM-TOXIPROXY.md has each; {words}\n"
        ),
        None => Ok(()),
    }
}

/// What there is in place of a command.
fn stand_in(name: &str) -> Option<&'static str> {
    match name {
        "create" => Some(
            "here a proxy stands in the populate file, or `toxi serve --listen ADDRESS --upstream ADDRESS` has one",
        ),
        "toxic" => Some(
            "here a toxic stands in a rule of the script, or behind `toxi serve --down` or `--up`",
        ),
        "list" | "inspect" => Some(
            "here the populate file and the script have the proxies and toxics, and `toxi forecast` prints what connections meet",
        ),
        "toggle" => Some(
            "here `\"enabled\": false` in the populate file turns a proxy off, and SIGTERM ends `toxi serve`",
        ),
        "delete" => Some("here a proxy that isn't in the populate file isn't served"),
        _ => None,
    }
}
