//! What `serve_with` may be told beyond what it serves.
ghost use Rattle.std.specs.Prelude.{◌≡◌, None, false};
ghost use Rattle.tox_serve.specs.declared.output.form.LineForm.TheVariants.{Words};

use crate::output::LineForm;
use tox_log::LogLimits;

/// Options of [`serve_with`](crate::serve_with). Each default leaves the option out.
#[derive(Clone, Copy, Debug, Default, PartialEq, Eq)]
pub struct ServeOptions<'a> {
    /// After how many connections each proxy stops listening, 1 to 1,000,000. None: it goes on.
    pub links: Option<u64>,
    /// How many milliseconds a connect to an address of an upstream may take, 1 to 600,000. None: as many as the system lets it.
    pub connect_timeout: Option<u32>,
    /// The address for probes, which listens once all proxies do. Its connections are closed at once and count for nothing. None: there is none.
    pub ready: Option<&'a str>,
    /// How many threads drive all links, 1 to 64. None: each link has threads of its own.
    pub workers: Option<u32>,
    /// How much of the links is logged. None: nothing is.
    pub logs: Option<LogLimits>,
    /// Whether a line tells what each stream of a link meets, once its upstream is reached.
    pub verbose: bool,
    /// How each line is written.
    pub form: LineForm,
}

impl<'a> ServeOptions<'a> {
    /// This limit of links, and no other option.
    pub(crate) fn with_links(links: Option<u64>) -> ServeOptions<'a>
        ensures { result ≡ record {
          links = links;
          connect_timeout = None;
          ready = None;
          workers = None;
          logs = None;
          verbose = false;
          form = Words;
        } }
    {
        ServeOptions {
            links,
            connect_timeout: None,
            ready: None,
            workers: None,
            logs: None,
            verbose: false,
            form: LineForm::Words,
        }
    }
}
