ghost use Rattle.std.specs.Prelude.{◌≡◌, ◌≢◌, length, MatchOption};
ghost use Rattle.script.specs.Format.{name, shape, meaning};

use crate::command::{Command, Word};

impl Word {
    // The most bytes that a word has, as WITHDRAW.
    pub(crate) const LEN_MAX: usize = 8;

    // The word as it is written.
    pub(crate) fn name(self) -> &'static [u8]
        ensures { result.now ≡ name self }
    {
        match self {
            Word::Hall => b"HALL",
            Word::PumpType => b"TYPE",
            Word::Add => b"ADD",
            Word::Withdraw => b"WITHDRAW",
            Word::Take => b"TAKE",
            Word::Shut => b"SHUT",
            Word::Open => b"OPEN",
            Word::Report => b"REPORT",
            Word::Note => b"NOTE",
        }
    }

    // The word that is written so.
    pub(crate) fn named(bytes: &[u8]) -> Option<Word>
        ensures { MatchOption result ((w : Word) → bytes.now ≢ name w) (λ w. bytes.now ≡ name w) }
    {
        match bytes {
            b"HALL" => Some(Word::Hall),
            b"TYPE" => Some(Word::PumpType),
            b"ADD" => Some(Word::Add),
            b"WITHDRAW" => Some(Word::Withdraw),
            b"TAKE" => Some(Word::Take),
            b"SHUT" => Some(Word::Shut),
            b"OPEN" => Some(Word::Open),
            b"REPORT" => Some(Word::Report),
            b"NOTE" => Some(Word::Note),
            _ => None,
        }
    }

    // How many fields follow the word.
    pub(crate) fn arity(self) -> usize
        ensures { result ≡ length (shape self) }
    {
        match self {
            Word::Hall | Word::Add | Word::Withdraw => 2,
            Word::PumpType | Word::Take | Word::Shut | Word::Open | Word::Note => 1,
            Word::Report => 0,
        }
    }
}

impl Command<'_> {
    // The word that the command's line begins with.
    pub(crate) fn word(self) -> Word
        ensures { result ≡ (meaning self.entry).0 }
    {
        match self {
            Command::Hall { .. } => Word::Hall,
            Command::PumpType(_) => Word::PumpType,
            Command::Add { .. } => Word::Add,
            Command::Withdraw { .. } => Word::Withdraw,
            Command::Take { .. } => Word::Take,
            Command::Shut { .. } => Word::Shut,
            Command::Open { .. } => Word::Open,
            Command::Report => Word::Report,
            Command::Note(_) => Word::Note,
        }
    }
}
