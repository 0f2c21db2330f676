//! The faults of populate files (C), of scripts (S, M), and of files, addresses and names (P).
use crate::faults::FaultForm;

pub const C0: FaultForm = FaultForm {
    code: "C0",
    name: "OutOfMemory",
    place: "",
    means: "memory was refused while the populate file was read",
    advice: "free memory and run it again",
};

pub const C1: FaultForm = FaultForm {
    code: "C1",
    name: "NotJson",
    place: "",
    means: "the populate file is no JSON, no UTF-8, or nests more than 127 deep",
    advice: "look for a missing comma or quote, or a comment: JSON has none",
};

pub const C2: FaultForm = FaultForm {
    code: "C2",
    name: "NotArray",
    place: "",
    means: "it is JSON, but no array",
    advice: "put `[` and `]` round the proxies",
};

pub const C3: FaultForm = FaultForm {
    code: "C3",
    name: "NotObject",
    place: "place",
    means: "what stands there is no object",
    advice: "write `{\"name\": .., \"upstream\": ..}`",
};

pub const C4: FaultForm = FaultForm {
    code: "C4",
    name: "Name",
    place: "place",
    means: "`name` is missing, no text, empty, or longer than 255 bytes",
    advice: "give the proxy a name",
};

pub const C5: FaultForm = FaultForm {
    code: "C5",
    name: "Listen",
    place: "place",
    means: "`listen` is no address",
    advice: "write `host:port`, with a port up to 65535; leave it out for a port of the system's choice",
};

pub const C6: FaultForm = FaultForm {
    code: "C6",
    name: "Upstream",
    place: "place",
    means: "`upstream` is missing or no address",
    advice: "write `host:port`, with a port up to 65535",
};

pub const C7: FaultForm = FaultForm {
    code: "C7",
    name: "Enabled",
    place: "place",
    means: "`enabled` is neither true, false nor null",
    advice: "write `true` or `false`, without quotes",
};

pub const C8: FaultForm = FaultForm {
    code: "C8",
    name: "TooMany",
    place: "place",
    means: "it is the 65th name",
    advice: "split the proxies between two `toxi serve`",
};

pub const M1: FaultForm = FaultForm {
    code: "M1",
    name: "AlreadyVersion2",
    place: "",
    means: "the script that is to be migrated has version 2",
    advice: "use it as it stands",
};

pub const P0: FaultForm = FaultForm {
    code: "P0",
    name: "OutOfMemory",
    place: "",
    means: "memory was refused while a file was read",
    advice: "free memory and run it again",
};

pub const P1: FaultForm = FaultForm {
    code: "P1",
    name: "FileFault",
    place: "the file's name",
    means: "it can't be opened or read (a folder too)",
    advice: "look at the name and its rights",
};

pub const P2: FaultForm = FaultForm {
    code: "P2",
    name: "FileTooLong",
    place: "the file's name",
    means: "it has more than 16,777,216 bytes",
    advice: "split it",
};

pub const P3: FaultForm = FaultForm {
    code: "P3",
    name: "UnknownProxy",
    place: "the proxy's name",
    means: "the populate file has no such proxy",
    advice: "look for the name in the populate file",
};

pub const P4: FaultForm = FaultForm {
    code: "P4",
    name: "ListenRefused",
    place: "the proxy's name, or --ready",
    means: "its address can't be listened at",
    advice: "look for a port that is taken, a host that isn't this machine's, or a missing right",
};

pub const P5: FaultForm = FaultForm {
    code: "P5",
    name: "BadStream",
    place: "",
    means: "it is neither `upstream` nor `downstream`",
    advice: "give one of the two",
};

pub const P6: FaultForm = FaultForm {
    code: "P6",
    name: "LogRefused",
    place: "the folder's name",
    means: "the folder of logs can't be made, or isn't empty",
    advice: "name a fresh folder",
};

pub const P7: FaultForm = FaultForm {
    code: "P7",
    name: "FilesRefused",
    place: "the folder's name",
    means: "the folder of `--print-files` can't be made, isn't empty, or doesn't take the files",
    advice: "name a fresh folder",
};

pub const P8: FaultForm = FaultForm {
    code: "P8",
    name: "NotReady",
    place: "the address",
    means: "it accepted no connection within the time of `wait`",
    advice: "look whether a server listens there, or give more time with `--within`",
};

pub const P9: FaultForm = FaultForm {
    code: "P9",
    name: "BadAddress",
    place: "the text",
    means: "it is no address",
    advice: "write `host:port`, with a port up to 65535",
};

pub const S0: FaultForm = FaultForm {
    code: "S0",
    name: "OutOfMemory",
    place: "",
    means: "memory was refused while the script was read",
    advice: "free memory and run it again",
};

pub const S1: FaultForm = FaultForm {
    code: "S1",
    name: "NotToml",
    place: "",
    means: "the script is no TOML document, or no UTF-8",
    advice: "look for a missing quote, or a key that stands twice",
};

pub const S2: FaultForm = FaultForm {
    code: "S2",
    name: "Field",
    place: "rule, toxic, field",
    means: "the field is missing, of the wrong kind or out of its range",
    advice: "mend that field; `unknown` is a key that doesn't belong there; rule 0 is the document, toxic 0 the rule",
};

pub const S3: FaultForm = FaultForm {
    code: "S3",
    name: "UnknownType",
    place: "the TOXIC's number, or rule, toxic",
    means: "there is no such type",
    advice: "take one of those in `toxi help toxics`",
};

pub const S4: FaultForm = FaultForm {
    code: "S4",
    name: "UnknownAttribute",
    place: "the TOXIC's number, or rule, toxic",
    means: "the type has no such attribute",
    advice: "see the type's attributes in `toxi help toxics`",
};

pub const S5: FaultForm = FaultForm {
    code: "S5",
    name: "OutOfRange",
    place: "the TOXIC's number, or rule, toxic",
    means: "an attribute is no whole number in its range",
    advice: "see its range in `toxi help toxics`; `rate` and `average_size` have no default",
};

pub const S6: FaultForm = FaultForm {
    code: "S6",
    name: "Variation",
    place: "the TOXIC's number, or rule, toxic",
    means: "`size_variation` isn't below `average_size`",
    advice: "lower it",
};

pub const S7: FaultForm = FaultForm {
    code: "S7",
    name: "ToxicityNotThousandths",
    place: "the TOXIC's number, or rule, toxic",
    means: "the toxicity is neither whole thousandths, 0 to 1000, nor in a script of version 2 a text such as `\"0.25\"`",
    advice: "give thousandths",
};

pub const S8: FaultForm = FaultForm {
    code: "S8",
    name: "DoubleName",
    place: "rule, toxic",
    means: "an earlier toxic of the rule has the same name",
    advice: "give it a `name` of its own: two toxics of a type and stream have one default name",
};

pub const S9: FaultForm = FaultForm {
    code: "S9",
    name: "TooManyToxics",
    place: "the TOXIC's number, or rule, toxic",
    means: "its chain has a toxic for each lane already: it is the 17th, or the 33rd with 32 lanes",
    advice: "take toxics out, or give 32 lanes",
};
