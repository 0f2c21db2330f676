//! The variables of the environment that stand in for options of `serve`.
use std::alloc::AllocError;
use std::env;
use std::env::VarError;
use std::rt::Env;
use tox_arguments::{Environment, SERVE};

/// The variables that are set.
pub fn set_variables<R: Env + AllocGlobal>(rt: &R) -> Result<Environment, AllocError> {
    let mut set = Environment::new(rt.alloc());
    for argument in SERVE.arguments {
        if argument.environment.is_empty() {
            continue;
        }
        match env::var(rt, argument.environment) {
            Ok(value) => set.add(argument.environment, Some(value))?,
            Err(VarError::NotUnicode) => set.add(argument.environment, None)?,
            Err(VarError::NotPresent) => {}
            Err(VarError::OutOfMemory) => return Err(AllocError),
        }
    }
    Ok(set)
}
