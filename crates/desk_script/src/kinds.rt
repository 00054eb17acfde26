ghost use Rattle.std.specs.Prelude.{◌≡◌};
ghost use Rattle.desk_script.specs.Scripts.{kind_number};

/// What is wrong with a line, in the order in which it is asked (docs/SERVICE.md).
#[derive(Clone, Copy, Debug, PartialEq, Eq, Drop)]
pub enum ScriptKind {
    /// No line feed ends it.
    NoEnd,
    /// It begins with no verb.
    Verb,
    /// It has not as many fields as its verb takes.
    Fields,
    /// Its client is no number, or not below the number of clients.
    Client,
    /// Its bytes are no even number of hexadecimal digits, or its hash is not 64 of them.
    Hex,
    /// A job's number or an output is no number, or too large.
    Number,
    /// As many lines as a script may have stand before it.
    TooMany,
}

/// Why a script is refused: its first bad line, counted from 1, and what is wrong with it first.
#[derive(Clone, Copy, Debug, PartialEq, Eq, Drop)]
pub struct ScriptRefusal {
    pub line: u32,
    pub kind: ScriptKind,
}

impl ScriptKind {
    /// The number by which a refusal names it.
    pub fn number(self) -> u64
        ensures { result ≡ kind_number self }
    {
        match self {
            ScriptKind::NoEnd => 1,
            ScriptKind::Verb => 2,
            ScriptKind::Fields => 3,
            ScriptKind::Client => 4,
            ScriptKind::Hex => 5,
            ScriptKind::Number => 6,
            ScriptKind::TooMany => 7,
        }
    }
}
