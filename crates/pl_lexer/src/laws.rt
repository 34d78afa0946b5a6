//! The laws of the definition of tokens.

ghost use Rattle.std.specs.Prelude.{◌≡◌, ℕ, List, Option, Result};
ghost use Rattle.pl_types.specs.declared.refusal.Refusal.{Refusal};
ghost use Rattle.pl_lexer.specs.declared.token.Token.{Token};
ghost use Rattle.pl_lexer.specs.Tokens.{Lexes};

/// A law of the definition of tokens, which runs nothing: each text has tokens or a fault, and only one of all these.
pub fn each_text_has_one_reading()
    ensures once { (text : List ℕ) (names : List ℕ → Option ℕ) (a b : Result (List Token) Refusal)
        → Lexes text names a → Lexes text names b → a ≡ b }
    ensures some { (text : List ℕ) (names : List ℕ → Option ℕ)
        → (reading : Result (List Token) Refusal) × Lexes text names reading }
{}
