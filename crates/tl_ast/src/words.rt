//! The words that statements begin with.
ghost use Rattle.std.specs.Prelude.{◌≡◌, IfSome};
ghost use Rattle.tl_ast.specs.TestGrammar.{word_name, stmt_word};

use crate::tree::DriverKind;

/// What statement it is, by its first word. No two begin with the same word.
#[derive(Clone, Copy, Debug, PartialEq, Eq)]
pub enum StmtWord {
    /// `poke`
    Poke,
    /// `peek`
    Peek,
    /// `expect`
    Expect,
    /// `step`
    Step,
    /// `let`
    Let,
    /// `set`
    Set,
    /// `if`
    If,
    /// `while`
    While,
    /// `repeat`
    Repeat,
    /// `fork`
    Fork,
    /// `join`
    Join,
    /// `joinstep`
    JoinStep,
    /// `reset`
    Reset,
    /// A driver's word.
    Driver(DriverKind),
}

const ALL: [StmtWord; 20] = [
    StmtWord::Poke,
    StmtWord::Peek,
    StmtWord::Expect,
    StmtWord::Step,
    StmtWord::Let,
    StmtWord::Set,
    StmtWord::If,
    StmtWord::While,
    StmtWord::Repeat,
    StmtWord::Fork,
    StmtWord::Join,
    StmtWord::JoinStep,
    StmtWord::Reset,
    StmtWord::Driver(DriverKind::Enqueue),
    StmtWord::Driver(DriverKind::EnqueueNow),
    StmtWord::Driver(DriverKind::EnqueueSeq),
    StmtWord::Driver(DriverKind::ExpectDequeue),
    StmtWord::Driver(DriverKind::ExpectDequeueNow),
    StmtWord::Driver(DriverKind::ExpectDequeueSeq),
    StmtWord::Driver(DriverKind::ExpectInvalid),
];

impl StmtWord {
    /// The word itself.
    pub fn word(self) -> &'static str
        ensures { result.now ≡ word_name self }
    {
        match self {
            StmtWord::Poke => "poke",
            StmtWord::Peek => "peek",
            StmtWord::Expect => "expect",
            StmtWord::Step => "step",
            StmtWord::Let => "let",
            StmtWord::Set => "set",
            StmtWord::If => "if",
            StmtWord::While => "while",
            StmtWord::Repeat => "repeat",
            StmtWord::Fork => "fork",
            StmtWord::Join => "join",
            StmtWord::JoinStep => "joinstep",
            StmtWord::Reset => "reset",
            StmtWord::Driver(kind) => match kind {
                DriverKind::Enqueue => "enqueue",
                DriverKind::EnqueueNow => "enqueueNow",
                DriverKind::EnqueueSeq => "enqueueSeq",
                DriverKind::ExpectDequeue => "expectDequeue",
                DriverKind::ExpectDequeueNow => "expectDequeueNow",
                DriverKind::ExpectDequeueSeq => "expectDequeueSeq",
                DriverKind::ExpectInvalid => "expectInvalid",
            },
        }
    }

    /// What statement this word begins, or `None` where it begins none. The time is constant.
    pub fn named(text: &[u8]) -> Option<StmtWord>
        ensures { result ≡ stmt_word text.now }
    {
        ALL.iter()
            .copied()
            .find(|word| word.word().as_bytes() == text)
    }
}
