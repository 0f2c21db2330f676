//! What the calls under test are made with.
use crate::setups::setup_of;
use std::process::Abort;
use tests_support::{arrivals_of, chain_of};
use tox_defs::Chain;
use tox_proxy::Setup;
use tox_time::Arrivals;
use tox_words::Words;

/// A proxy, each connection of which meets a toxic.
const CONFIG: &str = "[{\"name\":\"a\",\"upstream\":\"h:1\"}]";

pub const SCRIPT: &str = "\
[[rule]]
proxy = \"a\"
first = 1

[[rule.toxic]]
type = \"latency\"
attributes = { latency = 100 }
";

const MISTYPED_CONFIG: &str = "[{\"name\":\"shop\",\"upstream\":\"h:1\"}]";

const MISTYPED_SCRIPT: &str = "\
[[rule]]
proxy = \"shpo\"
first = 1

[[rule]]
proxy = \"shop\"
first = 2

[[rule]]
proxy = \"shop\"
first = 1
";

/// Values that are made with ample memory.
#[derive(Drop)]
pub struct Given {
    pub words: Words,
    /// A latency of 1 ms.
    pub latency: Chain,
    /// A latency of 1 ms, and then a slicer to single bytes.
    pub sliced: Chain,
    /// Three arrivals of two bytes, and the end.
    pub arrivals: Arrivals,
    pub setup: Setup,
    /// One rule names no proxy, and one applies to connection 1 only.
    pub mistyped: Setup,
}

impl Given {
    pub fn new(rt: &(impl Abort + AllocGlobal)) -> Given {
        Given {
            words: Words::from_list(rt.alloc(), &[0]).expect(rt, "words"),
            latency: chain_of("latency:latency=1").expect(rt, "a short form"),
            sliced: chain_of("latency:latency=1 slicer:average_size=1").expect(rt, "short forms"),
            arrivals: arrivals_of(rt.alloc(), "2@0 2@1000 2@2000 eof@3000").expect(rt, "arrivals"),
            setup: setup_of(rt, CONFIG, SCRIPT.as_bytes()),
            mistyped: setup_of(rt, MISTYPED_CONFIG, MISTYPED_SCRIPT.as_bytes()),
        }
    }
}
