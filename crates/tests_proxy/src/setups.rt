//! Setups that tests write down as texts.
use std::process::Abort;
use tox_config::{read_populate, read_remarks};
use tox_proxy::Setup;
use tox_script::{Script, read_script};

/// The script of a text.
pub fn script_of(rt: &(impl Abort + AllocGlobal), script: &[u8]) -> Script {
    read_script(rt.alloc(), script).expect(rt, "a script")
}

/// The setup of a config and a script.
pub fn setup_of(rt: &(impl Abort + AllocGlobal), config: &str, script: &[u8]) -> Setup {
    let proxies = read_populate(rt.alloc(), config.as_bytes()).expect(rt, "a config");
    let remarks = read_remarks(rt.alloc(), config.as_bytes(), &proxies).expect(rt, "a config");
    Setup {
        proxies,
        remarks,
        script: script_of(rt, script),
    }
}
