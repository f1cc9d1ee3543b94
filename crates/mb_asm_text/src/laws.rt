//! What holds of the cut of every line.

ghost use Rattle.std.specs.Prelude.{◌≡◌, ℕ, ◌<◌, All, IsTrue, List, Ok, Result, flat_map};
ghost use Rattle.std.specs.List.{AllPairs};
ghost use Rattle.mb_asm_text.specs.declared.token.Token.{Token};
ghost use Rattle.mb_asm_text.specs.declared.token.TokenKind.{TokenKind};
ghost use Rattle.mb_asm_text.specs.Kinds.{Where, is_token};
ghost use Rattle.mb_asm_text.specs.Cut.{IsCut, IsLongest, text_of};
ghost use Rattle.mb_asm_text.specs.Cutting.{cut_of};

/// A line has a cut, and no other.
pub fn one_cut()
    ensures some { (line : List ℕ) → IsCut line (cut_of line) }
    ensures one { (line : List ℕ) (cut other : Result (List Token) ℕ)
        → IsCut line cut → IsCut line other → cut ≡ other }
    // The same bytes at the same place are a token of one kind only.
    ensures one_kind { (kind other : TokenKind) (stands : Where) (bytes : List ℕ)
        → IsTrue (is_token kind stands bytes) → IsTrue (is_token other stands bytes) → kind ≡ other }
{}

/// The tokens into which a whole line is cut.
pub fn tokens_of_a_line()
    // Each is a token of its kind, and none that begins at its place is longer.
    ensures longest { (line : List ℕ) (tokens : List Token)
        → IsCut line (Ok tokens) → All (IsLongest line) tokens }
    ensures ascending { (line : List ℕ) (tokens : List Token)
        → IsCut line (Ok tokens) → AllPairs (λ earlier later. earlier.start < later.start) tokens }
    // Their slices in order are the line.
    ensures joined { (line : List ℕ) (tokens : List Token)
        → IsCut line (Ok tokens) → flat_map (text_of line) tokens ≡ line }
{}
