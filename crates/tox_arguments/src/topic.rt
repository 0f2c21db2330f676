//! The topics of `help` that are neither commands nor faults.
use crate::faults::FaultForm;
use crate::help;
use crate::schema::Schema;
use tox_defs::Toxic;

/// A text of help.
#[derive(Clone, Copy, Debug)]
pub enum HelpText {
    /// This text.
    One(&'static str),
    /// The toxics with their attributes.
    Toxics,
    /// The lines of all faults.
    Faults,
    /// A type of toxics with its attributes.
    Toxic(Toxic),
    /// The schema of a file.
    Schema(Schema),
    /// The line of a fault.
    Fault(&'static FaultForm),
}

/// A topic of `help`.
#[derive(Clone, Copy, Debug, PartialEq, Eq)]
pub enum Topic {
    Toxics,
    Scripts,
    Faults,
}

impl Topic {
    /// The topics, in the order of the manual.
    pub const EACH: [Topic; 3] = [Topic::Toxics, Topic::Scripts, Topic::Faults];

    /// The topic of this name.
    pub(crate) fn of_name(name: &str) -> Option<Topic> {
        Topic::EACH
            .iter()
            .copied()
            .find(|topic| topic.name() == name)
    }

    pub fn name(self) -> &'static str {
        match self {
            Topic::Toxics => "toxics",
            Topic::Scripts => "scripts",
            Topic::Faults => "faults",
        }
    }

    pub fn about(self) -> &'static str {
        match self {
            Topic::Toxics => "The toxics and their attributes",
            Topic::Scripts => "What a script is",
            Topic::Faults => "What each fault means",
        }
    }

    pub fn text(self) -> HelpText {
        match self {
            Topic::Toxics => HelpText::Toxics,
            Topic::Scripts => HelpText::One(help::SCRIPTS),
            Topic::Faults => HelpText::Faults,
        }
    }
}
