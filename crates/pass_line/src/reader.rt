// What the tokens of a plain module form.
ghost use Rattle.std.specs.Prelude.{◌≡◌, ◌-◌, ◌<◌, [], ◌∷◌, ◌++◌, List, Some, None, IfOk, MatchOption, IsTrue, true, false, if◌then◌else◌, length, map};
ghost use Rattle.erl_base.specs.declared.ids.Place.{Place};
ghost use Rattle.core_form.specs.declared.module.FunName.{FunName};
ghost use Rattle.core_form.specs.Core as Plain;
ghost use Rattle.core_form.specs.View.{view, def_view, module_view};
ghost use Rattle.pass_line.specs.PlainText.{is_open_paren, is_close_paren, is_comma, is_arrow, is_slash, is_equals, is_open_bracket, is_close_bracket, is_attributes_word, is_end_word, is_fun_word, is_module_word, is_variable, is_value, value_of, is_arity_in, arity_in, is_fun_name, fun_name, names_from, names, binder, opens_fun, ends, defs, params, params_after, body, opens_module, are_attributes, tree};

use crate::plain::MOST_ARITY;
use core_form::{Binder, Binders, Def, Defs, Expr, ExprForm, FunName, FunNames, Module};
use core_lex::{Symbol, Token, TokenKind, Word};
use erl_base::{Boxed, FunKey, List, Name, NoMemory, Place};
use erl_term::Term;
use std::alloc::Global;

fn is_open_paren(kind: &TokenKind) -> bool
    ensures { result ≡ is_open_paren kind.now }
{
    matches!(kind, TokenKind::Symbol(Symbol::OpenParen))
}

fn is_close_paren(kind: &TokenKind) -> bool
    ensures { result ≡ is_close_paren kind.now }
{
    matches!(kind, TokenKind::Symbol(Symbol::CloseParen))
}

fn is_comma(kind: &TokenKind) -> bool
    ensures { result ≡ is_comma kind.now }
{
    matches!(kind, TokenKind::Symbol(Symbol::Comma))
}

fn is_arrow(kind: &TokenKind) -> bool
    ensures { result ≡ is_arrow kind.now }
{
    matches!(kind, TokenKind::Symbol(Symbol::Arrow))
}

fn is_slash(kind: &TokenKind) -> bool
    ensures { result ≡ is_slash kind.now }
{
    matches!(kind, TokenKind::Symbol(Symbol::Slash))
}

fn is_equals(kind: &TokenKind) -> bool
    ensures { result ≡ is_equals kind.now }
{
    matches!(kind, TokenKind::Symbol(Symbol::Equals))
}

fn is_open_bracket(kind: &TokenKind) -> bool
    ensures { result ≡ is_open_bracket kind.now }
{
    matches!(kind, TokenKind::Symbol(Symbol::OpenBracket))
}

fn is_close_bracket(kind: &TokenKind) -> bool
    ensures { result ≡ is_close_bracket kind.now }
{
    matches!(kind, TokenKind::Symbol(Symbol::CloseBracket))
}

fn is_attributes_word(kind: &TokenKind) -> bool
    ensures { result ≡ is_attributes_word kind.now }
{
    matches!(kind, TokenKind::Word(Word::Attributes))
}

fn is_end_word(kind: &TokenKind) -> bool
    ensures { result ≡ is_end_word kind.now }
{
    matches!(kind, TokenKind::Word(Word::End))
}

fn is_fun_word(kind: &TokenKind) -> bool
    ensures { result ≡ is_fun_word kind.now }
{
    matches!(kind, TokenKind::Word(Word::Fun))
}

fn is_module_word(kind: &TokenKind) -> bool
    ensures { result ≡ is_module_word kind.now }
{
    matches!(kind, TokenKind::Word(Word::Module))
}

fn arity(token: &Token) -> Option<u32>
    ensures { MatchOption result (is_arity_in token.now.kind (token.now.to - token.now.from) ≡ false)
        (λ n. (is_arity_in token.now.kind (token.now.to - token.now.from) ≡ true) × (n ≡ arity_in token.now.kind)) }
{
    let TokenKind::Number(signed, number) = &token.kind else {
        return None;
    };
    if *signed || token.to.saturating_sub(token.from) > 9 {
        return None;
    }
    if *number < 0 || *number > MOST_ARITY as i128 {
        return None;
    }
    Some(*number as u32)
}

fn fun_name(
    alloc: Global,
    name: &Token,
    slash: &Token,
    number: &Token,
) -> Result<Option<FunName>, NoMemory>
    ensures { IfOk result (λ found. MatchOption found (is_fun_name name.now slash.now number.now ≡ false)
        (λ f. (is_fun_name name.now slash.now number.now ≡ true) × (f ≡ fun_name name.now number.now))) }
{
    let TokenKind::Atom(text) = &name.kind else {
        return Ok(None);
    };
    if !is_slash(&slash.kind) {
        return Ok(None);
    }
    let Some(arity) = arity(number) else {
        return Ok(None);
    };
    let key = FunKey {
        name: text.copy(alloc)?,
        arity,
    };
    Ok(Some(FunName {
        key,
        place: name.place,
    }))
}

fn names_from<'a>(
    alloc: Global,
    tokens: &'a [Token],
) -> Result<Option<(FunNames, &'a [Token])>, NoMemory>
    ensures { IfOk result (λ found. MatchOption found (names_from [] tokens.now ≡ None)
        (λ r. names_from [] tokens.now ≡ Some (r.0, r.1.now))) }
{
    let mut found = List::new(alloc);
    let mut rest = tokens;
    while let [name, slash, number, separator, later @ ..] = rest {
        let Some(named) = fun_name(alloc, name, slash, number)? else {
            return Ok(None);
        };
        found.push(named)?;
        if is_close_bracket(&separator.kind) {
            return Ok(Some((found, later)));
        }
        if !is_comma(&separator.kind) {
            return Ok(None);
        }
        rest = later;
    }
    Ok(None)
}

fn names<'a>(
    alloc: Global,
    tokens: &'a [Token],
) -> Result<Option<(FunNames, &'a [Token])>, NoMemory>
    ensures { IfOk result (λ found. MatchOption found (names tokens.now ≡ None)
        (λ r. names tokens.now ≡ Some (r.0, r.1.now))) }
{
    let [first, later @ ..] = tokens else {
        return Ok(None);
    };
    if is_close_bracket(&first.kind) {
        return Ok(Some((List::new(alloc), later)));
    }
    names_from(alloc, tokens)
}

fn binder(alloc: Global, token: &Token) -> Result<Option<Binder>, NoMemory>
    ensures { IfOk result (λ found. MatchOption found (is_variable token.now.kind ≡ false)
        (λ x. (is_variable token.now.kind ≡ true) × (x ≡ binder token.now))) }
{
    let TokenKind::Variable(name) = &token.kind else {
        return Ok(None);
    };
    Ok(Some(Binder {
        name: name.copy(alloc)?,
        place: token.place,
    }))
}

// What follows the parameters xs, up to the `)`.
fn params_after<'a>(
    alloc: Global,
    mut xs: Binders,
    tokens: &'a [Token],
) -> Result<Option<(Binders, &'a [Token])>, NoMemory>
    ensures value { IfOk result (λ found. MatchOption found
        ((ds : List Plain.Def) (f : FunName) (p : Place) → params_after ds f p xs tokens.now ≡ None)
        (λ r. (ds : List Plain.Def) (f : FunName) (p : Place)
        → params_after ds f p xs tokens.now ≡ body ds f p r.0 r.1.now)) }
    ensures shorter { IfOk result (λ found. MatchOption found (Unit {0}) (λ r. length r.1.now < length tokens.now)) }
{
    let mut rest = tokens;
    while let [separator, later @ ..] = rest {
        if is_close_paren(&separator.kind) {
            return Ok(Some((xs, later)));
        }
        if !is_comma(&separator.kind) {
            return Ok(None);
        }
        let [variable, more @ ..] = later else {
            return Ok(None);
        };
        let Some(x) = binder(alloc, variable)? else {
            return Ok(None);
        };
        xs.push(x)?;
        rest = more;
    }
    Ok(None)
}

// The parameters behind `(`.
fn params<'a>(
    alloc: Global,
    tokens: &'a [Token],
) -> Result<Option<(Binders, &'a [Token])>, NoMemory>
    ensures value { IfOk result (λ found. MatchOption found
        ((ds : List Plain.Def) (f : FunName) (p : Place) → params ds f p tokens.now ≡ None)
        (λ r. (ds : List Plain.Def) (f : FunName) (p : Place) → params ds f p tokens.now ≡ body ds f p r.0 r.1.now)) }
    ensures shorter { IfOk result (λ found. MatchOption found (Unit {0}) (λ r. length r.1.now < length tokens.now)) }
{
    let [first, later @ ..] = tokens else {
        return Ok(None);
    };
    let mut xs = List::new(alloc);
    if is_close_paren(&first.kind) {
        return Ok(Some((xs, later)));
    }
    let Some(x) = binder(alloc, first)? else {
        return Ok(None);
    };
    xs.push(x)?;
    params_after(alloc, xs, later)
}

fn value(alloc: Global, token: &Token) -> Result<Option<Expr>, NoMemory>
    ensures { IfOk result (λ found. MatchOption found (is_value token.now.kind ≡ false)
        (λ e. (is_value token.now.kind ≡ true) × (view e ≡ value_of token.now.kind token.now.place))) }
{
    let form = match &token.kind {
        TokenKind::Variable(name) => ExprForm::Var(name.copy(alloc)?),
        TokenKind::Atom(name) => ExprForm::Literal(Term::Atom(name.copy(alloc)?)),
        TokenKind::Number(_, number) => ExprForm::Literal(Term::Int(*number)),
        TokenKind::Word(_)
        | TokenKind::Symbol(_)
        | TokenKind::Wide(_)
        | TokenKind::Float
        | TokenKind::Character(_)
        | TokenKind::Letters(_)
        | TokenKind::Bad
        | TokenKind::End => return Ok(None),
    };
    Ok(Some(Expr {
        place: token.place,
        form,
    }))
}

fn fun_def(
    alloc: Global,
    name: FunName,
    place: Place,
    xs: Binders,
    value: Expr,
) -> Result<Def, NoMemory>
    ensures { IfOk result (λ d. def_view d ≡ Plain.def name.place name.key (Plain.fun place xs (view value))) }
{
    let fun = Expr {
        place,
        form: ExprForm::Fun(xs, Boxed::new(alloc, value)?),
    };
    Ok(Def {
        key: name.key,
        place: name.place,
        fun,
    })
}

// The definition of a function, from its parameters on.
fn def<'a>(
    alloc: Global,
    name: FunName,
    place: Place,
    tokens: &'a [Token],
) -> Result<Option<(Def, &'a [Token])>, NoMemory>
    ensures value { IfOk result (λ found. MatchOption found
        ((ds : List Plain.Def) → params ds name place tokens.now ≡ None)
        (λ r. (ds : List Plain.Def) → params ds name place tokens.now ≡ defs (ds ++ def_view r.0 ∷ []) r.1.now)) }
    ensures shorter { IfOk result (λ found. MatchOption found (Unit {0}) (λ r. length r.1.now < length tokens.now)) }
{
    let Some((xs, rest)) = params(alloc, tokens)? else {
        return Ok(None);
    };
    let [arrow, first, later @ ..] = rest else {
        return Ok(None);
    };
    if !is_arrow(&arrow.kind) {
        return Ok(None);
    }
    let Some(value) = value(alloc, first)? else {
        return Ok(None);
    };
    let def = fun_def(alloc, name, place, xs, value)?;
    Ok(Some((def, later)))
}

fn opens_fun(equals: &Token, word: &Token, paren: &Token) -> bool
    ensures { result ≡ opens_fun equals.now word.now paren.now }
{
    is_equals(&equals.kind) && is_fun_word(&word.kind) && is_open_paren(&paren.kind)
}

fn ends(word: &Token, last: &Token) -> bool
    ensures { result ≡ ends word.now last.now }
{
    if let TokenKind::End = &last.kind {
        is_end_word(&word.kind)
    } else {
        false
    }
}

// Whether fewer tokens than a definition has are `end` and the end of the text.
fn is_end(tokens: &[Token]) -> bool
    requires { length tokens.now < 6 }
    ensures { (ds : List Plain.Def) → defs ds tokens.now ≡ (if result then Some ds else None) }
{
    let [word, last] = tokens else {
        return false;
    };
    ends(word, last)
}

fn defs(alloc: Global, tokens: &[Token]) -> Result<Option<Defs>, NoMemory>
    ensures { IfOk result (λ found. MatchOption found (defs [] tokens.now ≡ None)
        (λ ds. defs [] tokens.now ≡ Some (map def_view ds))) }
{
    let mut found = List::new(alloc);
    let mut rest = tokens;
    while let [name, slash, number, equals, word, paren, later @ ..] = rest {
        let Some(named) = fun_name(alloc, name, slash, number)? else {
            return Ok(None);
        };
        if !opens_fun(equals, word, paren) {
            return Ok(None);
        }
        let Some((def, more)) = def(alloc, named, word.place, later)? else {
            return Ok(None);
        };
        found.push(def)?;
        rest = more;
    }
    if is_end(rest) {
        Ok(Some(found))
    } else {
        Ok(None)
    }
}

fn opens_module(word: &Token, bracket: &Token) -> bool
    ensures { result ≡ opens_module word.now bracket.now }
{
    is_module_word(&word.kind) && is_open_bracket(&bracket.kind)
}

fn are_attributes(word: &Token, left: &Token, right: &Token) -> bool
    ensures { result ≡ are_attributes word.now left.now right.now }
{
    is_attributes_word(&word.kind) && is_open_bracket(&left.kind) && is_close_bracket(&right.kind)
}

/// The module that the tokens of a text form, if they form a plain one.
pub fn module(alloc: Global, tokens: &[Token]) -> Result<Option<Module>, NoMemory>
    ensures { IfOk result (λ found. MatchOption found (tree tokens.now ≡ None)
        (λ m. tree tokens.now ≡ Some (module_view m))) }
{
    let [word, name, bracket, later @ ..] = tokens else {
        return Ok(None);
    };
    let TokenKind::Atom(text) = &name.kind else {
        return Ok(None);
    };
    if !opens_module(word, bracket) {
        return Ok(None);
    }
    let Some((exports, rest)) = names(alloc, later)? else {
        return Ok(None);
    };
    let [attributes, left, right, later @ ..] = rest else {
        return Ok(None);
    };
    if !are_attributes(attributes, left, right) {
        return Ok(None);
    }
    let Some(defs) = defs(alloc, later)? else {
        return Ok(None);
    };
    let name = text.copy(alloc)?;
    Ok(Some(Module {
        name,
        exports,
        attributes: List::new(alloc),
        defs,
        floats: None,
        wide: None,
        long: None,
    }))
}
