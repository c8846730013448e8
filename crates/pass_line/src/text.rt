// The plain module of a text.
ghost use Rattle.std.specs.Prelude.{◌≡◌, ◌==◌, IfOk, MatchOption, IsUtf8, false, chars};
ghost use Rattle.std.specs.List.{list_any};
ghost use Rattle.erl_base.specs.Ascii.{percent};
ghost use Rattle.core_lex.specs.Tokens.{tokens};
ghost use Rattle.core_form.specs.View.{module_view};
ghost use Rattle.pass_line.specs.PlainText.{PlainText};
ghost use Rattle.pass_line.specs.Compiled.{IsNoPlainText};

use crate::plain::is_plain;
use crate::reader::module;
use core_form::Module;
use core_lex::{Tokens, lex};
use erl_base::{Fault, NoMemory};
use std::alloc::Global;

fn has_percent(bytes: &[u8]) -> bool
    ensures { result ≡ list_any (λ b. b == percent) bytes.now }
{
    for b in bytes {
        if *b == b'%' {
            return true;
        }
    }
    false
}

// The tokens of bytes that are text.
fn tokens_of(alloc: Global, bytes: &[u8]) -> Result<Option<Tokens>, NoMemory>
    ensures { IfOk result (λ found. MatchOption found (IsUtf8 bytes.now → ⊥)
        (λ ts. IsUtf8 bytes.now × (ts ≡ tokens (chars bytes.now)))) }
{
    match lex(alloc, &[bytes]) {
        Ok(tokens) => Ok(Some(tokens)),
        Err(Fault::Refused(_)) => Ok(None),
        Err(Fault::NoMemory) => Err(NoMemory),
    }
}

/// The module whose text the bytes are, if they are the text of a plain one.
pub fn plain_module(alloc: Global, bytes: &[u8]) -> Result<Option<Module>, NoMemory>
    ensures { IfOk result (λ found. MatchOption found (IsNoPlainText bytes.now)
        (λ m. PlainText bytes.now (module_view m))) }
{
    if has_percent(bytes) {
        return Ok(None);
    }
    let Some(tokens) = tokens_of(alloc, bytes)? else {
        return Ok(None);
    };
    let Some(tree) = module(alloc, tokens.as_slice())? else {
        return Ok(None);
    };
    if !is_plain(alloc, &tree)? {
        return Ok(None);
    }
    Ok(Some(tree))
}
