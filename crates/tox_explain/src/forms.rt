//! The words of each fault, in the table of `toxi help faults`.
use crate::failure::Failure;
use tox_arguments::FaultForm;
use tox_arguments::faults::{
    A1, A2, A3, A4, C0, C1, C2, C3, C4, C5, C6, C7, C8, F0, F1, G1, G2, G3, L0, L1, L2, L3, L4, M1,
    P0, P1, P2, P3, P4, P5, P6, P7, P8, P9, Q1, Q2, S0, S1, S2, S3, S4, S5, S6, S7, S8, S9, V1, W0,
    W1, W2, W3,
};
use tox_config::ConfigFault;
use tox_defs::{ShortFault, ToxicFault};
use tox_proxy::{DryFault, FileFault, ReplayFault, ServeFault, ToxicsFault, WaitFault};
use tox_script::ScriptFault;
use tox_stages::StageFault;
use tox_time::ArrivalFault;
use tox_words::WordsFault;

impl Failure<'_> {
    /// The fault's row of the table.
    pub(crate) fn form(&self) -> FaultForm {
        match self {
            Failure::Toxics(fault) => of_toxics(fault),
            Failure::Words(fault) => of_words(fault),
            Failure::Config(fault) => of_config(fault),
            Failure::Script(fault) => of_script(fault),
            Failure::Dry(fault) => of_dry(fault),
            Failure::Stage(StageFault::OutOfMemory) => F0,
            Failure::Stage(StageFault::SpawnRefused) => F1,
            Failure::File(fault, _) => of_file(fault),
            Failure::Log(fault, _) => of_log(fault),
            Failure::Serve(fault) => of_serve(fault),
            Failure::Wait(fault) => of_wait(fault),
            Failure::UnknownProxy(_) => P3,
            Failure::BadStream => P5,
            Failure::LogRefused(_, _) => P6,
            Failure::FilesRefused(_, _) => P7,
            Failure::Warned(_) => V1,
        }
    }
}

fn of_toxics(fault: &ToxicsFault) -> FaultForm {
    match fault {
        ToxicsFault::Short(ShortFault::BadForm, _) => Q1,
        ToxicsFault::Short(ShortFault::DoubleKey, _) => Q2,
        ToxicsFault::Short(ShortFault::Toxic(fault), _) => of_toxic(fault),
        ToxicsFault::TooMany(_) => S9,
    }
}

fn of_toxic(fault: &ToxicFault) -> FaultForm {
    match fault {
        ToxicFault::UnknownType => S3,
        ToxicFault::UnknownAttribute => S4,
        ToxicFault::OutOfRange => S5,
        ToxicFault::Variation => S6,
        ToxicFault::ToxicityNotThousandths => S7,
    }
}

fn of_words(fault: &WordsFault) -> FaultForm {
    match fault {
        WordsFault::OutOfMemory => W0,
        WordsFault::NoWords => W1,
        WordsFault::TooMany => W2,
        WordsFault::BadWord(_) => W3,
    }
}

fn of_config(fault: &ConfigFault) -> FaultForm {
    match fault {
        ConfigFault::OutOfMemory => C0,
        ConfigFault::NotJson => C1,
        ConfigFault::NotArray => C2,
        ConfigFault::NotObject(_) => C3,
        ConfigFault::Name(_) => C4,
        ConfigFault::Listen(_) => C5,
        ConfigFault::Upstream(_) => C6,
        ConfigFault::Enabled(_) => C7,
        ConfigFault::TooMany(_) => C8,
    }
}

fn of_script(fault: &ScriptFault) -> FaultForm {
    match fault {
        ScriptFault::OutOfMemory => S0,
        ScriptFault::NotToml => S1,
        ScriptFault::Field(_, _) => S2,
        ScriptFault::Toxic(_, fault) => of_toxic(fault),
        ScriptFault::DoubleName(_) => S8,
        ScriptFault::TooManyToxics(_) => S9,
        ScriptFault::AlreadyVersion2 => M1,
    }
}

fn of_dry(fault: &DryFault) -> FaultForm {
    match fault {
        DryFault::OutOfMemory => L0,
        DryFault::BadLine(_) => L1,
        DryFault::TooLong => L2,
        DryFault::ReadFault => L3,
        DryFault::WriteFault => L4,
        DryFault::Arrival(ArrivalFault::TimeBack, _) => A1,
        DryFault::Arrival(ArrivalFault::EmptyPiece, _) => A2,
        DryFault::Arrival(ArrivalFault::TooManyBytes, _) => A3,
        DryFault::Arrival(ArrivalFault::AfterEnd, _) => A4,
        // A run without a list of arrivals never tells it.
        DryFault::Arrival(ArrivalFault::OutOfMemory, _) => L0,
    }
}

fn of_file(fault: &FileFault<'_>) -> FaultForm {
    match fault {
        FileFault::OutOfMemory => P0,
        FileFault::Unreadable(_) => P1,
        FileFault::TooLong(_) => P2,
    }
}

fn of_log(fault: &ReplayFault<'_>) -> FaultForm {
    match fault {
        ReplayFault::OutOfMemory => L0,
        ReplayFault::WriteFault => L4,
        ReplayFault::Unreadable(_) => P1,
        ReplayFault::BadLog(_, _) => G1,
        ReplayFault::LogTooDeep(_, _) => G2,
        ReplayFault::NotFaithful(_) => G3,
    }
}

fn of_serve(fault: &ServeFault<'_>) -> FaultForm {
    match fault {
        ServeFault::ListenRefused(_, _) | ServeFault::ReadyRefused(_) => P4,
        ServeFault::SpawnRefused => F1,
        ServeFault::OutOfMemory => F0,
    }
}

fn of_wait(fault: &WaitFault<'_>) -> FaultForm {
    match fault {
        WaitFault::OutOfMemory => L0,
        WaitFault::SpawnRefused => F1,
        WaitFault::NotReady(_) => P8,
        WaitFault::BadAddress(_) => P9,
    }
}
