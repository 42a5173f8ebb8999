// What holds of every text, as functions that do nothing: each contract is the law.
ghost use Rattle.std.specs.Prelude.{◌≡◌, ◌⊎◌, ℕ, List};
ghost use Rattle.sql_lex.specs.Tokens.{Item, AreTokens, AreTokensUpTo};

/// Each text is a list of tokens, or one up to a place at which something stands that isn't a token.
pub fn each_text_has_tokens()
    ensures { (base : ℕ) (text : List ℕ) → ((items : List Item) × AreTokens base text items)
        ⊎ ((items : List Item) × (at : ℕ) × AreTokensUpTo base text items at) }
{}

/// A text is at most one list of tokens.
pub fn one_token_list()
    ensures { (base : ℕ) (text : List ℕ) (xs ys : List Item) → AreTokens base text xs
        → AreTokens base text ys → xs ≡ ys }
{}

/// A text that is tokens has no place at which there is none, and any other has one first such place.
pub fn one_end()
    ensures not_both { (base at : ℕ) (text : List ℕ) (xs ys : List Item) → AreTokens base text xs
        → AreTokensUpTo base text ys at → ⊥ }
    ensures one_place { (base at place : ℕ) (text : List ℕ) (xs ys : List Item)
        → AreTokensUpTo base text xs at → AreTokensUpTo base text ys place → (xs ≡ ys) × (at ≡ place) }
{}
