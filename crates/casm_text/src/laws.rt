ghost use Rattle.casm_text.specs.Listings.{Lists, BeginsWith, listing_text};
ghost use Rattle.casm_text.specs.Lines.{Line, IsLine};
ghost use Rattle.casm_text.specs.Refusals.{Assembles, IsAsmCause, IsFirstAsmCause, KeepsTextRules, most_words};
ghost use Rattle.casm_text.specs.Statements.{Statement};
ghost use Rattle.goldi_field.specs.Numbers.{IsFelt};
ghost use Rattle.casm_text.specs.Tokens.{AreTokens};
ghost use Rattle.std.specs.Prelude.{ℕ, ◌≡◌, ◌≤◌, ◌⊎◌, List, length};
ghost use Rattle.std.specs.List.{AllByRecursion};

use crate::refusal::AsmRefusal;

/// A line has one list of tokens.
pub fn one_token_list()
    ensures found { (bytes : List ℕ) → (tokens : List (List ℕ)) × AreTokens bytes tokens }
    ensures only { (bytes : List ℕ) (a b : List (List ℕ)) → AreTokens bytes a → AreTokens bytes b → a ≡ b }
{}

/// The bytes of a line are one empty line, label or statement at most.
pub fn one_line()
    ensures { (bytes : List ℕ) (a b : Line) → IsLine bytes a → IsLine bytes b → a ≡ b }
{}

/// At most one statement other than `word`, plainly spelled, gives the words from here on.
pub fn one_statement()
    ensures { (words : List ℕ) (s t : Statement) (rest after : List ℕ) → BeginsWith words s rest → BeginsWith words t after → s ≡ t }
{}

/// Words have one listing at most.
pub fn one_listing()
    ensures { (words : List ℕ) (ss others : List Statement) → Lists words ss → Lists words others → ss ≡ others }
{}

/// The listing of at most 65,536 words assembles to these words.
pub fn listing_assembles()
    ensures { (words : List ℕ) (ss : List Statement) → AllByRecursion IsFelt words → length words ≤ most_words → Lists words ss → Assembles (listing_text ss) words 0 }
{}

/// A text assembles to one code at most.
pub fn one_assembly()
    ensures { (text words others : List ℕ) (main entry : ℕ) → Assembles text words main → Assembles text others entry → (words ≡ others) × (main ≡ entry) }
{}

/// A text that assembles has no cause of a refusal.
pub fn assembles_without_cause()
    ensures { (text words : List ℕ) (main : ℕ) (cause : AsmRefusal) → Assembles text words main → ¬ IsAsmCause text cause }
{}

/// Words have a listing.
pub fn listing_exists()
    ensures { (words : List ℕ) → AllByRecursion IsFelt words → (ss : List Statement) × Lists words ss }
{}

/// At most one cause of a refusal is the first.
pub fn one_first_cause()
    ensures { (text : List ℕ) (c d : AsmRefusal) → IsFirstAsmCause text c → IsFirstAsmCause text d → c ≡ d }
{}

/// What a text assembles to is code: at most 65,536 words, each a field number.
pub fn code_is_small()
    ensures count { (text words : List ℕ) (main : ℕ) → Assembles text words main → length words ≤ most_words }
    ensures felts { (text words : List ℕ) (main : ℕ) → Assembles text words main → AllByRecursion IsFelt words }
{}

/// Each text keeps the three rules, or has a first cause of a refusal.
pub fn kept_or_refused()
    ensures { (text : List ℕ) → KeepsTextRules text ⊎ ((cause : AsmRefusal) × IsFirstAsmCause text cause) }
{}
