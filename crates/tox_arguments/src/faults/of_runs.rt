//! The faults of arrivals and runs (A, L, F), of logs (G), of the toxics and words of a command line (Q, W), and of `check` (V).
use crate::faults::FaultForm;

pub const A1: FaultForm = FaultForm {
    code: "A1",
    name: "TimeBack",
    place: "line",
    means: "the instant is below the last one",
    advice: "put the lines in the order of their instants",
};

pub const A2: FaultForm = FaultForm {
    code: "A2",
    name: "EmptyPiece",
    place: "line",
    means: "no byte arrives",
    advice: "give a byte, or leave the line out",
};

pub const A3: FaultForm = FaultForm {
    code: "A3",
    name: "TooManyBytes",
    place: "line",
    means: "more than 2^40 bytes",
    advice: "end the link earlier",
};

pub const A4: FaultForm = FaultForm {
    code: "A4",
    name: "AfterEnd",
    place: "line",
    means: "the source has ended",
    advice: "end with the first `eof`",
};

pub const F0: FaultForm = FaultForm {
    code: "F0",
    name: "OutOfMemory",
    place: "",
    means: "memory was refused while `serve` or `stages` began",
    advice: "free memory and run it again",
};

pub const F1: FaultForm = FaultForm {
    code: "F1",
    name: "SpawnRefused",
    place: "",
    means: "a thread can't be had",
    advice: "raise the limit of threads or of memory (`ulimit -u`), or use `dry` in place of `stages`",
};

pub const G1: FaultForm = FaultForm {
    code: "G1",
    name: "BadLog",
    place: "the file's name, line",
    means: "this line of a log isn't of the form, or may not stand there",
    advice: "look for a leading zero, a CR, a reading that falls, or a line behind the last one",
};

pub const G2: FaultForm = FaultForm {
    code: "G2",
    name: "LogTooDeep",
    place: "the file's name, line",
    means: "this line is a piece that comes while 1024 pieces wait, the one that holds the next byte to say and those behind it",
    advice: "no live link writes such a log",
};

pub const G3: FaultForm = FaultForm {
    code: "G3",
    name: "NotFaithful",
    place: "how many logs",
    means: "so many logs are unfaithful",
    advice: "see their lines",
};

pub const L0: FaultForm = FaultForm {
    code: "L0",
    name: "OutOfMemory",
    place: "",
    means: "memory was refused",
    advice: "free memory and run it again",
};

pub const L1: FaultForm = FaultForm {
    code: "L1",
    name: "BadLine",
    place: "line",
    means: "it is no line of the arrivals text",
    advice: "look for a second space, a sign, or a digit that is not hexadecimal",
};

pub const L2: FaultForm = FaultForm {
    code: "L2",
    name: "TooLong",
    place: "",
    means: "the input has more than 16,777,216 bytes",
    advice: "split the run",
};

pub const L3: FaultForm = FaultForm {
    code: "L3",
    name: "ReadFault",
    place: "",
    means: "a read of the input failed",
    advice: "look at what standard input is: a folder can't be read",
};

pub const L4: FaultForm = FaultForm {
    code: "L4",
    name: "WriteFault",
    place: "",
    means: "a write of the output failed, or took nothing",
    advice: "take the whole output: a prefix of it was written",
};

pub const Q1: FaultForm = FaultForm {
    code: "Q1",
    name: "BadForm",
    place: "the TOXIC's number",
    means: "it is no short form",
    advice: "write `type` or `type:key=value,key=value`, with no space",
};

pub const Q2: FaultForm = FaultForm {
    code: "Q2",
    name: "DoubleKey",
    place: "the TOXIC's number",
    means: "a key stands twice",
    advice: "keep one of them",
};

pub const V1: FaultForm = FaultForm {
    code: "V1",
    name: "Warned",
    place: "how many lines",
    means: "`check --strict` printed so many warnings",
    advice: "see the lines, and what they mean",
};

pub const W0: FaultForm = FaultForm {
    code: "W0",
    name: "OutOfMemory",
    place: "",
    means: "memory was refused while the words were read",
    advice: "free memory and run it again",
};

pub const W1: FaultForm = FaultForm {
    code: "W1",
    name: "NoWords",
    place: "",
    means: "the words are empty",
    advice: "give a number, or leave `--words` out",
};

pub const W2: FaultForm = FaultForm {
    code: "W2",
    name: "TooMany",
    place: "",
    means: "more than 4096 words",
    advice: "give fewer: they go round",
};

pub const W3: FaultForm = FaultForm {
    code: "W3",
    name: "BadWord",
    place: "place",
    means: "that part is no word",
    advice: "a word is 1 to 10 digits, up to 4294967295",
};
