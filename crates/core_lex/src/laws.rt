// What the definition of the tokens amounts to. These functions do nothing: each law is its contract.
ghost use Rattle.std.specs.Prelude.{◌≡◌, ℕ, ◌+◌, ◌<◌, List, length, take, drop};
ghost use Rattle.std.specs.List.{All};
ghost use Rattle.erl_base.specs.declared.ids.Place.{Place};
ghost use Rattle.core_lex.specs.declared.token.TokenKind.TheVariants.{Symbol};
ghost use Rattle.core_lex.specs.declared.token.Symbol as Symbols;
ghost use Rattle.utf8_text.specs.Places.{place_after, byte_len};
ghost use Rattle.core_lex.specs.TokenLaws.{IsWithin, Begins, IsLongestSymbol, IsSmallIfShort};
ghost use Rattle.core_lex.specs.Tokens.{lexeme_at, tokens_from, before, tokens, of_kind, symbol_at, bad};

/// The lexemes cut the text: each has at least one character, and the tokens behind it are those of the rest.
pub fn lexemes_cut_the_text()
    ensures within { (cs : List ℕ) → 0 < length cs → IsWithin (length cs) (lexeme_at cs) }
    ensures cut { (cs : List ℕ) (place : Place) (byte : ℕ) → 0 < length cs →
        let n = (lexeme_at cs).size in let to = byte + byte_len (take n cs) in
        tokens_from cs 0 place byte ≡ before (lexeme_at cs).kind place byte to
        (tokens_from (drop n cs) 0 (place_after (take n cs) place) to) }
{}

/// The longest symbol is taken, and where none stands the token is bad.
pub fn longest_symbol_is_taken()
    ensures longest { (cs s : List ℕ) (symbol : Symbols.Symbol) → IsLongestSymbol cs s symbol →
        symbol_at cs ≡ of_kind (Symbol symbol) (length s) }
    ensures none { (cs : List ℕ) → ((s : List ℕ) (symbol : Symbols.Symbol) → Begins cs s symbol → ⊥)
        → symbol_at cs ≡ bad }
{}

/// An unsigned number of at most nine bytes is below 10^9.
pub fn short_numbers_are_small()
    ensures { (cs : List ℕ) → All IsSmallIfShort (tokens cs) }
{}
