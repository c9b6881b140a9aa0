//! The first words of lines.
ghost use Rattle.std.specs.Prelude.{◌≡◌, bytes_eq};
ghost use Rattle.tmf_script.specs.Line.{keyword_text, keyword_of, home_of, admits};

/// The first word of a line.
#[derive(Clone, Copy, Debug, PartialEq, Eq)]
pub enum Keyword {
    Trail,
    Volume,
    File,
    Cache,
    Car,
    Roll,
    Steps,
    Format,
    Recover,
    Lose,
    Rollforward,
    List,
    Run,
    Worker,
    End,
    Control,
    Dump,
    Begin,
    Put,
    Add,
    Del,
    Read,
    Commit,
    Abort,
}

/// Where the next line stands.
#[derive(Clone, Copy, Debug, PartialEq, Eq)]
pub enum Place {
    /// No action has begun.
    Head,
    /// Between actions.
    Body,
    /// In a run that has no worker yet.
    Run,
    /// In a worker, between its items.
    Worker,
    /// In a transaction.
    Transaction,
}

/// All first words; those that a script may have most often stand first.
const KEYWORDS: [Keyword; 24] = [
    Keyword::Put,
    Keyword::Begin,
    Keyword::Commit,
    Keyword::Add,
    Keyword::Read,
    Keyword::Del,
    Keyword::Abort,
    Keyword::Trail,
    Keyword::Volume,
    Keyword::File,
    Keyword::Cache,
    Keyword::Car,
    Keyword::Roll,
    Keyword::Steps,
    Keyword::Format,
    Keyword::Recover,
    Keyword::Lose,
    Keyword::Rollforward,
    Keyword::List,
    Keyword::Run,
    Keyword::Worker,
    Keyword::End,
    Keyword::Control,
    Keyword::Dump,
];

impl Keyword {
    /// The first word that this is, if it is one.
    #[tactic(auto, unfolding(crate::specs::Line::keyword_of))]
    pub fn of(word: &[u8]) -> Option<Keyword>
        ensures { result ≡ keyword_of word.now }
    {
        let mut rest = KEYWORDS.as_slice();
        while let Some((keyword, others)) = rest.split_first() {
            if is_same(keyword.text(), word) {
                return Some(*keyword);
            }
            rest = others;
        }
        None
    }

    /// The word's bytes.
    fn text(self) -> &'static [u8]
        ensures { result.now ≡ keyword_text self }
    {
        match self {
            Keyword::Trail => b"trail",
            Keyword::Volume => b"volume",
            Keyword::File => b"file",
            Keyword::Cache => b"cache",
            Keyword::Car => b"car",
            Keyword::Roll => b"roll",
            Keyword::Steps => b"steps",
            Keyword::Format => b"format",
            Keyword::Recover => b"recover",
            Keyword::Lose => b"lose",
            Keyword::Rollforward => b"rollforward",
            Keyword::List => b"list",
            Keyword::Run => b"run",
            Keyword::Worker => b"worker",
            Keyword::End => b"end",
            Keyword::Control => b"control",
            Keyword::Dump => b"dump",
            Keyword::Begin => b"begin",
            Keyword::Put => b"put",
            Keyword::Add => b"add",
            Keyword::Del => b"del",
            Keyword::Read => b"read",
            Keyword::Commit => b"commit",
            Keyword::Abort => b"abort",
        }
    }

    /// The first place at which its line may stand.
    pub fn home(self) -> Place
        ensures { result ≡ home_of self }
    {
        match self {
            Keyword::Trail
            | Keyword::Volume
            | Keyword::File
            | Keyword::Cache
            | Keyword::Car
            | Keyword::Roll
            | Keyword::Steps => Place::Head,
            Keyword::Format
            | Keyword::Recover
            | Keyword::Lose
            | Keyword::Rollforward
            | Keyword::List
            | Keyword::Run => Place::Body,
            Keyword::Worker | Keyword::End => Place::Run,
            Keyword::Control | Keyword::Dump | Keyword::Begin => Place::Worker,
            Keyword::Put
            | Keyword::Add
            | Keyword::Del
            | Keyword::Read
            | Keyword::Commit
            | Keyword::Abort => Place::Transaction,
        }
    }
}

impl Place {
    /// Whether a line with this home may stand here: actions end the head, and workers follow each other.
    pub fn allows(self, home: Place) -> bool
        ensures { result ≡ admits self home }
    {
        match self {
            Place::Head => home == Place::Head || home == Place::Body,
            Place::Body => home == Place::Body,
            Place::Run => home == Place::Run,
            Place::Worker => home == Place::Run || home == Place::Worker,
            Place::Transaction => home == Place::Transaction,
        }
    }
}

/// Whether the words are the same.
pub fn is_same(left: &[u8], right: &[u8]) -> bool
    ensures { result ≡ bytes_eq left.now right.now }
{
    left == right
}
