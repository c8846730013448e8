use erl_base::{List, Name, Place};

/// Code points.
pub type Codes = List<u32>;

/// The tokens of a text. The last one, and no other, is `End` or `Bad`.
pub type Tokens = List<Token>;

/// A token, the place of its first character, and its bytes: from `from` up to and without `to`.
#[derive(Debug, Drop)]
pub struct Token {
    pub kind: TokenKind,
    pub place: Place,
    pub from: u64,
    pub to: u64,
}

/// What a token is, and what it means. The flag of a `Number` says whether a sign was written; it comes first, so that
/// a token takes 64 bytes in place of 80. `Wide` is an integer outside 128 signed bits, with the number of its digits.
#[derive(Debug, Drop)]
pub enum TokenKind {
    Word(Word),
    Symbol(Symbol),
    Variable(Name),
    Atom(Name),
    Number(bool, i128),
    Wide(u64),
    Float,
    Character(u32),
    Letters(Codes),
    Bad,
    End,
}

/// A kept word.
#[derive(Clone, Copy, Debug, PartialEq, Eq)]
pub enum Word {
    After,
    Apply,
    Attributes,
    Call,
    Case,
    Catch,
    Do,
    End,
    Fun,
    In,
    Let,
    Letrec,
    Module,
    Of,
    Primop,
    Receive,
    Try,
    When,
}

/// A symbol. The pairs of a map are written with `=>` where a key may be new and with `:=` where it must be there; `-|`
/// stands before annotations, `#{` and `}#` round a binary, `#<` before a segment of one, `~{` and `}~` round a map.
#[derive(Clone, Copy, Debug, PartialEq, Eq)]
pub enum Symbol {
    Arrow,
    AnnotationBar,
    Association,
    ExactAssociation,
    OpenBinary,
    CloseBinary,
    OpenSegment,
    OpenMap,
    CloseMap,
    OpenParen,
    CloseParen,
    OpenBrace,
    CloseBrace,
    OpenBracket,
    CloseBracket,
    OpenAngle,
    CloseAngle,
    Bar,
    Comma,
    Slash,
    Colon,
    Equals,
}

/// What stands at the front of characters: the kind of the token, or `None` for a blank or a comment, and how many
/// characters write it.
#[derive(Debug, Drop)]
pub struct Lexeme {
    pub kind: Option<TokenKind>,
    pub size: usize,
}
