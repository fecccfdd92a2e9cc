//! The words that lines begin with, and those of commands.
ghost use Rattle.std.specs.Prelude.{◌≡◌, find};
ghost use Rattle.std.specs.Option.{option_map};
ghost use Rattle.std.specs.Str.{bytes_eq};
ghost use Rattle.event_script.specs.Words as spec;

use crate::fault::Kind;

/// The first word of a line that is no call's.
#[derive(Clone, Copy, PartialEq, Eq)]
pub enum Keyword {
    Vcpus,
    Processors,
    Shards,
    Limits,
    Ids,
    Profile,
    Window,
    Config,
    Pending,
    Bytes,
    Restore,
    Gicr,
    Rrestore,
    FromKvm,
    Linux,
    Track,
    Pair,
    Brestore,
    ItsBase,
    BBase,
    Requester,
    Phase,
    Thread,
    Migrate,
    Precopy,
    End,
    Trace,
    /// A call of the second translator follows.
    Second,
}

/// All of them.
pub const KEYWORDS: [Keyword; 28] = [
    Keyword::Second,
    Keyword::Bytes,
    Keyword::Thread,
    Keyword::Phase,
    Keyword::Vcpus,
    Keyword::Processors,
    Keyword::Shards,
    Keyword::Limits,
    Keyword::Ids,
    Keyword::Profile,
    Keyword::Window,
    Keyword::Config,
    Keyword::Pending,
    Keyword::Restore,
    Keyword::Gicr,
    Keyword::Rrestore,
    Keyword::FromKvm,
    Keyword::Linux,
    Keyword::Track,
    Keyword::Pair,
    Keyword::Brestore,
    Keyword::ItsBase,
    Keyword::BBase,
    Keyword::Requester,
    Keyword::Migrate,
    Keyword::Precopy,
    Keyword::End,
    Keyword::Trace,
];

/// The first word of a call's line. `Word` is a description's too.
#[derive(Clone, Copy, PartialEq, Eq)]
pub enum CallWord {
    Signal,
    Take,
    Show,
    Best,
    Claim,
    Poke,
    Word,
    Command,
    Peek,
    Read,
    Write,
    Rread,
    Rwrite,
    Step,
    Save,
    Copy,
    Dma,
}

/// All of them.
pub const CALL_WORDS: [CallWord; 17] = [
    CallWord::Signal,
    CallWord::Take,
    CallWord::Show,
    CallWord::Step,
    CallWord::Command,
    CallWord::Write,
    CallWord::Read,
    CallWord::Poke,
    CallWord::Peek,
    CallWord::Word,
    CallWord::Save,
    CallWord::Rread,
    CallWord::Rwrite,
    CallWord::Best,
    CallWord::Claim,
    CallWord::Copy,
    CallWord::Dma,
];

/// The word of a command.
#[derive(Clone, Copy, PartialEq, Eq)]
pub enum CommandWord {
    Mapd,
    Unmapd,
    Mapc,
    Unmapc,
    Mapti,
    Mapi,
    Movi,
    Movall,
    Int,
    Clear,
    Discard,
    Inv,
    Invall,
    Sync,
}

/// All of them.
pub const COMMAND_WORDS: [CommandWord; 14] = [
    CommandWord::Mapti,
    CommandWord::Mapi,
    CommandWord::Mapd,
    CommandWord::Unmapd,
    CommandWord::Mapc,
    CommandWord::Unmapc,
    CommandWord::Movi,
    CommandWord::Movall,
    CommandWord::Int,
    CommandWord::Clear,
    CommandWord::Discard,
    CommandWord::Inv,
    CommandWord::Invall,
    CommandWord::Sync,
];

impl Keyword {
    /// What the line begins with.
    #[tactic(auto, unfolding(crate::specs::Words::keyword_text))]
    fn text(self) -> &'static str
        ensures { result.now ≡ spec.keyword_text self }
    {
        match self {
            Keyword::Vcpus => "vcpus",
            Keyword::Processors => "processors",
            Keyword::Shards => "shards",
            Keyword::Limits => "limits",
            Keyword::Ids => "ids",
            Keyword::Profile => "profile",
            Keyword::Window => "window",
            Keyword::Config => "config",
            Keyword::Pending => "pending",
            Keyword::Bytes => "bytes",
            Keyword::Restore => "restore",
            Keyword::Gicr => "gicr",
            Keyword::Rrestore => "rrestore",
            Keyword::FromKvm => "from-kvm",
            Keyword::Linux => "linux",
            Keyword::Track => "track",
            Keyword::Pair => "pair",
            Keyword::Brestore => "brestore",
            Keyword::ItsBase => "its-base",
            Keyword::BBase => "b-base",
            Keyword::Requester => "requester",
            Keyword::Phase => "phase",
            Keyword::Thread => "thread",
            Keyword::Migrate => "migrate",
            Keyword::Precopy => "precopy",
            Keyword::End => "end",
            Keyword::Trace => "trace",
            Keyword::Second => "b",
        }
    }

    fn is(self, word: &[u8]) -> bool
        ensures { result ≡ bytes_eq (spec.keyword_text self) word.now }
    {
        self.text().as_bytes() == word
    }
}

impl CallWord {
    /// What the line begins with.
    #[tactic(auto, unfolding(crate::specs::Words::call_text))]
    fn text(self) -> &'static str
        ensures { result.now ≡ spec.call_text self }
    {
        match self {
            CallWord::Signal => "signal",
            CallWord::Take => "take",
            CallWord::Show => "show",
            CallWord::Best => "best",
            CallWord::Claim => "claim",
            CallWord::Poke => "poke",
            CallWord::Word => "word",
            CallWord::Command => "command",
            CallWord::Peek => "peek",
            CallWord::Read => "read",
            CallWord::Write => "write",
            CallWord::Rread => "rread",
            CallWord::Rwrite => "rwrite",
            CallWord::Step => "step",
            CallWord::Save => "save",
            CallWord::Copy => "copy",
            CallWord::Dma => "dma",
        }
    }

    fn is(self, word: &[u8]) -> bool
        ensures { result ≡ bytes_eq (spec.call_text self) word.now }
    {
        self.text().as_bytes() == word
    }
}

impl CommandWord {
    /// What stands after the address.
    #[tactic(auto, unfolding(crate::specs::Words::command_text))]
    fn text(self) -> &'static str
        ensures { result.now ≡ spec.command_text self }
    {
        match self {
            CommandWord::Mapd => "mapd",
            CommandWord::Unmapd => "unmapd",
            CommandWord::Mapc => "mapc",
            CommandWord::Unmapc => "unmapc",
            CommandWord::Mapti => "mapti",
            CommandWord::Mapi => "mapi",
            CommandWord::Movi => "movi",
            CommandWord::Movall => "movall",
            CommandWord::Int => "int",
            CommandWord::Clear => "clear",
            CommandWord::Discard => "discard",
            CommandWord::Inv => "inv",
            CommandWord::Invall => "invall",
            CommandWord::Sync => "sync",
        }
    }

    fn is(self, word: &[u8]) -> bool
        ensures { result ≡ bytes_eq (spec.command_text self) word.now }
    {
        self.text().as_bytes() == word
    }
}

/// The keyword of a line that begins with a word, which is no call's.
#[tactic(auto, unfolding(crate::specs::Words::keyword_of))]
pub fn keyword_of(word: &[u8]) -> Result<Keyword, Kind>
    ensures { result ≡ spec.keyword_of word.now }
{
    match find_keyword(word) {
        Some(keyword) => Ok(*keyword),
        None => Err(Kind::Word),
    }
}

fn find_keyword(word: &[u8]) -> Option<&Keyword>
    ensures { option_map (λ k. k.now) result
        ≡ find (λ k. bytes_eq (spec.keyword_text k) word.now) spec.KEYWORDS }
{
    KEYWORDS.iter().find(|keyword| keyword.is(word))
}

/// The word that a call's line begins with.
#[tactic(auto, unfolding(crate::specs::Words::call_word_of))]
pub fn call_word_of(word: &[u8]) -> Option<CallWord>
    ensures { result ≡ spec.call_word_of word.now }
{
    match find_call_word(word) {
        Some(call_word) => Some(*call_word),
        None => None,
    }
}

fn find_call_word(word: &[u8]) -> Option<&CallWord>
    ensures { option_map (λ w. w.now) result
        ≡ find (λ w. bytes_eq (spec.call_text w) word.now) spec.CALL_WORDS }
{
    CALL_WORDS.iter().find(|call_word| call_word.is(word))
}

/// The word of a command.
#[tactic(auto, unfolding(crate::specs::Words::command_word_of))]
pub fn command_word_of(word: &[u8]) -> Result<CommandWord, Kind>
    ensures { result ≡ spec.command_word_of word.now }
{
    match find_command_word(word) {
        Some(command_word) => Ok(*command_word),
        None => Err(Kind::Fields),
    }
}

fn find_command_word(word: &[u8]) -> Option<&CommandWord>
    ensures { option_map (λ w. w.now) result
        ≡ find (λ w. bytes_eq (spec.command_text w) word.now) spec.COMMAND_WORDS }
{
    COMMAND_WORDS
        .iter()
        .find(|command_word| command_word.is(word))
}
