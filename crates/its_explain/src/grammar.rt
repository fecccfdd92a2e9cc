//! The lines of a script, by their first words: what may stand in each field.
use event_script::FEW_VCPUS;
use its_types::MOST_VCPUS;

/// What may stand in a field.
#[derive(Clone, Copy)]
pub enum Slot {
    /// A number: what it is, the least and the greatest.
    Number(&'static str, u64, u64),
    /// A multiple of a number: what it is, of which number, and the greatest.
    Multiple(&'static str, u64, u64),
    /// A virtual processor.
    Vcpu,
    /// Bytes, from one to so many, of two hexadecimal digits each.
    Hex(u64),
    /// A number of shards.
    Shards,
    /// The size of an access.
    Size,
    /// A value of an access, whose size is the field before.
    Value,
    /// The word of a command.
    Command,
}

/// A line of a script.
#[derive(Clone, Copy)]
pub struct Form {
    /// As it is written.
    pub text: &'static str,
    /// The fields after the first word.
    pub slots: &'static [Slot],
}

/// The first words of a description's lines.
pub const DESCRIPTION: [&str; 22] = [
    "vcpus",
    "processors",
    "shards",
    "limits",
    "ids",
    "profile",
    "window",
    "config",
    "pending",
    "gicr",
    "linux",
    "pair",
    "track",
    "its-base",
    "b-base",
    "requester",
    "bytes",
    "word",
    "restore",
    "brestore",
    "rrestore",
    "from-kvm",
];

/// The first words of lines that begin and end parts of the body.
pub const STRUCTURE: [&str; 5] = ["phase", "thread", "migrate", "precopy", "end"];

/// The first words of calls.
pub const CALLS: [&str; 18] = [
    "signal", "take", "show", "best", "claim", "poke", "word", "command", "peek", "read", "write",
    "rread", "rwrite", "step", "save", "copy", "dma", "b",
];

/// The words of commands.
pub const COMMANDS: [&str; 14] = [
    "mapd", "unmapd", "mapc", "unmapc", "mapti", "mapi", "movi", "movall", "int", "clear",
    "discard", "inv", "invall", "sync",
];

const U32: u64 = 4_294_967_295;

const U64: u64 = 18_446_744_073_709_551_615;

const PROCESSORS: u64 = 68_719_476_735;

const BASES: u64 = 18_446_744_073_709_486_080;

const TABLES: u64 = 4_503_599_627_370_240;

const FEW: Slot = Slot::Number("the count (for more see `processors N`)", 1, FEW_VCPUS);

const MANY: Slot = Slot::Number(
    "the count (for fewer see `vcpus N`)",
    FEW_VCPUS + 1,
    MOST_VCPUS as u64,
);

const ADDRESS: Slot = Slot::Number("an address", 0, U64);

const DEVICE: Slot = Slot::Number("a DeviceID", 0, U32);

const EVENT: Slot = Slot::Number("an EventID", 0, U32);

const INTID: Slot = Slot::Number("an INTID", 0, U32);

const COLLECTION: Slot = Slot::Number("a collection's number (ICID)", 0, 65_535);

const TARGET: Slot = Slot::Number("a processor's number", 0, PROCESSORS);

const OFFSET: Slot = Slot::Number("a register's offset", 0, U32);

const REGISTER: Slot = Slot::Number("a register's value", 0, U64);

const REQUESTER: Slot = Slot::Number("a requester", 0, U32);

/// The line of a description, or one that begins or ends a part of the body, by its first word.
pub fn line_form(word: &str) -> Option<Form> {
    match word {
        "phase" => Some(written("phase", &[])),
        "thread" => Some(written("thread", &[])),
        "migrate" => Some(written("migrate", &[])),
        "precopy" => Some(written("precopy", &[])),
        "end" => Some(written("end", &[])),
        "trace" => Some(written("trace", &[])),
        "gicr" => Some(written("gicr", &[])),
        "linux" => Some(written("linux", &[])),
        "pair" => Some(written("pair", &[])),
        "track" => Some(written("track", &[])),
        "from-kvm" => Some(written("from-kvm", &[])),
        _ => described_form(word),
    }
}

fn written(text: &'static str, slots: &'static [Slot]) -> Form {
    Form { text, slots }
}

/// A line of a description that has fields.
fn described_form(word: &str) -> Option<Form> {
    match word {
        "vcpus" => Some(written("vcpus N", &[FEW])),
        "processors" => Some(written("processors N", &[MANY])),
        "shards" => Some(written("shards N", &[Slot::Shards])),
        "limits" => Some(written(
            "limits STAMP PLACE",
            &[
                Slot::Number("the last stamp", 1, 16_777_215),
                Slot::Number("the count of places", 1, 1_099_511_627_775),
            ],
        )),
        "ids" => Some(written(
            "ids D N",
            &[
                Slot::Number("the count of DeviceID bits", 16, 20),
                Slot::Number("the count of INTID bits", 14, 20),
            ],
        )),
        "profile" => Some(written("profile P", &[Slot::Number("the profile", 1, 2)])),
        "window" => Some(written(
            "window BASE LENGTH",
            &[ADDRESS, Slot::Number("a length", 0, U64)],
        )),
        "config" => Some(written("config ADDR", &[ADDRESS])),
        "pending" => Some(written("pending V ADDR", &[Slot::Vcpu, ADDRESS])),
        "its-base" => Some(written("its-base ADDR", &[BASE])),
        "b-base" => Some(written("b-base ADDR", &[BASE])),
        _ => filled_form(word),
    }
}

const BASE: Slot = Slot::Multiple("an address", 65_536, BASES);

/// A line of a description that puts something into memory or registers, or names requesters.
fn filled_form(word: &str) -> Option<Form> {
    match word {
        "requester" => Some(written("requester FIRST LAST DEV", &[REQUESTER, REQUESTER, DEVICE])),
        "bytes" => Some(written("bytes ADDR HEX", &[ADDRESS, Slot::Hex(4096)])),
        "restore" => Some(written(
            "restore CTLR CBASER CREADR CWRITER BASER0 BASER1",
            &[REGISTER, REGISTER, REGISTER, REGISTER, REGISTER, REGISTER],
        )),
        "brestore" => Some(written(
            "brestore CTLR CBASER CREADR CWRITER BASER0 BASER1",
            &[REGISTER, REGISTER, REGISTER, REGISTER, REGISTER, REGISTER],
        )),
        "rrestore" => Some(written(
            "rrestore V CTLR PROPBASER PENDBASER",
            &[Slot::Vcpu, REGISTER, REGISTER, REGISTER],
        )),
        _ => None,
    }
}

/// The line of a call, by its first word.
pub fn call_form(word: &str) -> Option<Form> {
    match word {
        "signal" => Some(written("signal DEV EV", &[DEVICE, EVENT])),
        "take" => Some(written("take V", &[Slot::Vcpu])),
        "show" => Some(written("show V", &[Slot::Vcpu])),
        "best" => Some(written(
            "best V MASK",
            &[Slot::Vcpu, Slot::Number("a mask of priorities", 0, 255)],
        )),
        "claim" => Some(written("claim V INTID", &[Slot::Vcpu, INTID])),
        "poke" => Some(written("poke ADDR HEX", &[ADDRESS, Slot::Hex(64)])),
        "word" => Some(written("word ADDR N", &[ADDRESS, Slot::Number("8 bytes", 0, U64)])),
        "command" => Some(written("command ADDR C", &[ADDRESS, Slot::Command])),
        "peek" => Some(written("peek ADDR LEN", &[ADDRESS, Slot::Number("a length", 1, 64)])),
        "step" => Some(written("step", &[])),
        "save" => Some(written("save", &[])),
        "copy" => Some(written("copy", &[])),
        "dma" => Some(written("dma REQ ADDR HEX", &[REQUESTER, ADDRESS, Slot::Hex(64)])),
        _ => access_form(word),
    }
}

/// A call that reads or writes a register.
fn access_form(word: &str) -> Option<Form> {
    match word {
        "read" => Some(written("read OFF SIZE", &[OFFSET, Slot::Size])),
        "write" => Some(written("write OFF SIZE VALUE", &[OFFSET, Slot::Size, Slot::Value])),
        "rread" => Some(written("rread V OFF SIZE", &[Slot::Vcpu, OFFSET, Slot::Size])),
        "rwrite" => Some(written(
            "rwrite V OFF SIZE VALUE",
            &[Slot::Vcpu, OFFSET, Slot::Size, Slot::Value],
        )),
        _ => None,
    }
}

/// The line of a command, by its word.
pub fn command_form(word: &str) -> Option<Form> {
    match word {
        "mapd" => Some(written(
            "command ADDR mapd DEV BITS ITT",
            &[
                ADDRESS,
                Slot::Command,
                DEVICE,
                Slot::Number("a count of EventID bits", 1, 32),
                Slot::Multiple("a table's address", 256, TABLES),
            ],
        )),
        "unmapd" => Some(written("command ADDR unmapd DEV", &[ADDRESS, Slot::Command, DEVICE])),
        "mapc" => Some(written(
            "command ADDR mapc ICID VCPU",
            &[ADDRESS, Slot::Command, COLLECTION, TARGET],
        )),
        "unmapc" => Some(written(
            "command ADDR unmapc ICID",
            &[ADDRESS, Slot::Command, COLLECTION],
        )),
        "mapti" => Some(written(
            "command ADDR mapti DEV EV INTID ICID",
            &[ADDRESS, Slot::Command, DEVICE, EVENT, INTID, COLLECTION],
        )),
        "movall" => Some(written(
            "command ADDR movall FROM TO",
            &[ADDRESS, Slot::Command, TARGET, TARGET],
        )),
        "invall" => Some(written(
            "command ADDR invall ICID",
            &[ADDRESS, Slot::Command, COLLECTION],
        )),
        "sync" => Some(written("command ADDR sync VCPU", &[ADDRESS, Slot::Command, TARGET])),
        _ => event_form(word),
    }
}

/// The line of a command that names an event.
fn event_form(word: &str) -> Option<Form> {
    match word {
        "mapi" => Some(written(
            "command ADDR mapi DEV EV ICID",
            &[ADDRESS, Slot::Command, DEVICE, EVENT, COLLECTION],
        )),
        "movi" => Some(written(
            "command ADDR movi DEV EV ICID",
            &[ADDRESS, Slot::Command, DEVICE, EVENT, COLLECTION],
        )),
        "int" => Some(event_alone("command ADDR int DEV EV")),
        "clear" => Some(event_alone("command ADDR clear DEV EV")),
        "discard" => Some(event_alone("command ADDR discard DEV EV")),
        "inv" => Some(event_alone("command ADDR inv DEV EV")),
        _ => None,
    }
}

fn event_alone(text: &'static str) -> Form {
    written(text, &[ADDRESS, Slot::Command, DEVICE, EVENT])
}
