//! `toxi help`: the text of a topic, on standard output.
use crate::piped_output::lacks_reader;
use std::io;
use tox_arguments::{FAULTS, HelpText, ToxicHelp, ToxicsHelp};
use tox_proxy::WriteFault;

/// Prints a text. A reader that leaves has read what it wanted.
#[inline(never)]
pub fn help<R: Print>(rt: &R, text: HelpText) -> Result<(), WriteFault> {
    let printed = match text {
        HelpText::One(text) => println!(rt; "{text}"),
        HelpText::Toxics => println!(rt; "{}", ToxicsHelp),
        HelpText::Toxic(toxic) => println!(rt; "{}", ToxicHelp(toxic)),
        HelpText::Faults => print_faults(rt),
        HelpText::Schema(schema) => println!(rt; "{schema}"),
        HelpText::Fault(fault) => println!(rt; "{fault}"),
    };
    match printed {
        Err(error) if !lacks_reader(&error) => Err(WriteFault),
        _ => Ok(()),
    }
}

/// Prints the lines of all faults.
fn print_faults<R: Print>(rt: &R) -> io::Result<()> {
    for fault in FAULTS {
        println!(rt; "{fault}")?;
    }
    Ok(())
}
