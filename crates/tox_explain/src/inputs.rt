//! What a command was given.
use tox_config::ProxyDef;

/// A text with the name that it is called by: a file's, or `standard input`.
#[derive(Clone, Copy)]
pub struct NamedText<'a> {
    pub name: &'a str,
    pub bytes: &'a [u8],
}

/// What a command was given, as far as it had read it when it failed. What is absent isn't explained.
#[derive(Clone, Copy)]
pub struct Inputs<'a> {
    /// The short forms of toxics on the command line, in the order typed.
    pub toxics: &'a [&'a str],
    /// The random words of the command line.
    pub words: Option<&'a str>,
    /// The stream that was named on the command line.
    pub stream: Option<&'a str>,
    /// Where the proxy of the command line listens.
    pub listen: Option<&'a str>,
    /// What the proxy of the command line connects to.
    pub upstream: Option<&'a str>,
    /// The address for probes.
    pub ready: Option<&'a str>,
    /// The proxies that are served.
    pub proxies: &'a [ProxyDef],
    /// The populate file.
    pub config: Option<NamedText<'a>>,
    /// The script file.
    pub script: Option<NamedText<'a>>,
    /// The arrivals, or a log.
    pub lines: Option<NamedText<'a>>,
}

impl<'a> Inputs<'a> {
    /// Nothing at all.
    pub fn none() -> Inputs<'a> {
        Inputs {
            toxics: &[],
            words: None,
            stream: None,
            listen: None,
            upstream: None,
            ready: None,
            proxies: &[],
            config: None,
            script: None,
            lines: None,
        }
    }
}
