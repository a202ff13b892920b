//! The keyword that a line begins with.
ghost use Rattle.std.specs.Prelude.{◌≡◌, None, IfSome};
ghost use Rattle.mm_text.specs.LineReaderInside.{keyword_of_word};
ghost use Rattle.mm_text.specs.Refusal.{IsKeyword};
ghost use Rattle.mm_text.specs.ScriptText.{is_of_text};
ghost use Rattle.mm_text.specs.declared.line.Keyword.{Keyword};

use crate::line::Keyword;

/// The keyword of this text that a word spells; `handler` is one only where the text has handlers.
pub fn keyword_in(word: &[u8], handlers: bool) -> Option<Keyword>
    ensures found { IfSome result (λ keyword. IsKeyword handlers keyword word.now) }
    ensures none { result ≡ None → (keyword : Keyword) → IsKeyword handlers keyword word.now → ⊥ }
{
    let keyword = spelled(word)?;
    if is_said(keyword, handlers) {
        Some(keyword)
    } else {
        None
    }
}

/// Whether a text says lines of this keyword.
fn is_said(keyword: Keyword, handlers: bool) -> bool
    ensures { result ≡ is_of_text handlers keyword }
{
    match keyword {
        Keyword::Handler => handlers,
        _ => true,
    }
}

/// The keyword that a word spells.
#[tactic(auto, unfolding(crate::specs::LineReaderInside::keyword_of_word))]
fn spelled(word: &[u8]) -> Option<Keyword>
    ensures { result ≡ keyword_of_word word.now }
{
    if word == b"lanes".as_slice() {
        return Some(Keyword::Lanes);
    }
    if word == b"cell".as_slice() {
        return Some(Keyword::Cell);
    }
    if word == b"handler".as_slice() {
        return Some(Keyword::Handler);
    }
    if word == b"poke".as_slice() {
        return Some(Keyword::Poke);
    }
    if word == b"fill".as_slice() {
        return Some(Keyword::Fill);
    }
    if word == b"ring".as_slice() {
        return Some(Keyword::Ring);
    }
    if word == b"step".as_slice() {
        return Some(Keyword::Step);
    }
    if word == b"run".as_slice() {
        return Some(Keyword::Run);
    }
    None
}
