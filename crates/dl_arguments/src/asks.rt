//! Asks, by their spelling.

ghost use Rattle.std.specs.Prelude.{◌≡◌, ◌<◌, ◌≤◌, ◌^◌, ◌++◌, ◌∷◌, [], IfErr, IfOk, Ok, drop, length, map, option_map};
ghost use Rattle.dl_limits.specs.Limits.{most_asks};
ghost use Rattle.dl_arguments.specs.Asks.{asks_of};
ghost use Rattle.dl_arguments.specs.Table.{ask_of, layer, letter_s, limit, plus, read_by, rows, share_of_tail, term, terms, unit_amount, unit_level};
ghost use Rattle.dl_arguments.specs.Ways.{behind_sign, cut_at, joined};
ghost use Rattle.dl_arguments.specs.Faults.{ExplainsAsks};
ghost use Rattle.dl_plan.specs.Terms.{most_terms};
ghost use Rattle.dl_arguments.specs.declared.fault.UsageFault.TheVariants as faults;
ghost use Rattle.dl_arguments.specs.declared.fault.WordsFault.TheVariants.{Usage};

use crate::fault::{UsageFault, WordsFault};
use crate::spelling::{amount, is_word, probability, weight};
use dl_frac::Frac;
use dl_lexer::Text;
use dl_limits::Rules;
use dl_plan::{Ask, Asked, Items, MOST_TERMS, Term, are_priced};
use std::alloc::{AllocError, Global};

/// The asks that the texts spell by these rules, or the index of the first that spells none.
#[tactic(auto, using(crate::proofs::AskLists::all_read))]
pub(crate) fn read_asks(
    alloc: Global,
    rules: Rules,
    texts: &[&str],
) -> Result<Vec<Asked>, WordsFault>
    requires { length texts.now ≤ most_asks }
    ensures asks { IfOk result (λ asks.
        asks_of rules (map (λ text. text.now) texts.now) ≡ Ok asks.items) }
    ensures fault { IfErr result (ExplainsAsks (asks_of rules (map (λ text. text.now) texts.now))) }
{
    let mut asks = Vec::new(alloc);
    for (index, text) in texts.iter().enumerate() {
        match read_asked(alloc, rules, text)? {
            Some(asked) => asks.push(asked)?,
            None => return Err(ask_fault(index)),
        }
    }
    Ok(asks)
}

/// The fault that the ask with this index is not spelled as one.
fn ask_fault(index: usize) -> WordsFault
    requires { index < 2 ^ 32 }
    ensures { result ≡ Usage (faults.Ask index) }
{
    WordsFault::Usage(UsageFault::Ask(index as u32))
}

/// The ask that the text spells by these rules, with a copy of the text; none where it spells none.
fn read_asked(alloc: Global, rules: Rules, text: &str) -> Result<Option<Asked>, AllocError>
    ensures { IfOk result (λ asked. asked ≡ option_map
        (λ ask. record { text = text.now; ask = ask }) (ask_of rules text.now)) }
{
    let Some(ask) = read_ask(alloc, rules, text)? else {
        return Ok(None);
    };
    let text = Text::copy(alloc, text.as_bytes())?;
    Ok(Some(Asked { text, ask }))
}

/// The ask that the text spells by these rules; none where it spells none.
#[tactic(auto, unfolding(crate::specs::Table::ask_of))]
fn read_ask(alloc: Global, rules: Rules, text: &str) -> Result<Option<Ask>, AllocError>
    ensures { IfOk result (λ ask. ask ≡ ask_of rules text.now) }
{
    if text == "mean" {
        return Ok(Some(Ask::Mean));
    }
    match cut(text, ':') {
        Some((head, rest)) => ask_between(alloc, rules, head, rest),
        None => Ok(None),
    }
}

/// The ask by these rules of the text before the first colon and the text behind it; none where it
/// is no ask.
fn ask_between(
    alloc: Global,
    rules: Rules,
    head: &str,
    rest: &str,
) -> Result<Option<Ask>, AllocError>
    ensures { IfOk result (λ ask. ask ≡ read_by (rows rules) head.now rest.now) }
{
    match head {
        "pmf" => Ok(amount(rest).map(Ask::Pmf)),
        "cdf" => Ok(amount(rest).map(Ask::Cdf)),
        "q" => Ok(probability(rest, 9).map(Ask::Quantile)),
        "tail" => Ok(probability(rest, 9).map(Ask::Tail)),
        "price" => Ok(price(alloc, rest)?.map(|terms| Ask::Price(Items::from_vec(terms)))),
        "layer" => Ok(layer(rest).map(|(limit, attach)| Ask::LayerMean { limit, attach })),
        _ => ask_of_unit(alloc, rules, head, rest),
    }
}

/// The ask by these rules of the text before the first colon, where it asks of one unit, and the
/// text behind it; none where it is no such ask.
fn ask_of_unit(
    alloc: Global,
    rules: Rules,
    head: &str,
    rest: &str,
) -> Result<Option<Ask>, AllocError>
    ensures { IfOk result (λ ask. ask ≡ read_by (drop 6 (rows rules)) head.now rest.now) }
{
    match head {
        "joint" => Ok(unit_at(alloc, rest)?.map(|(unit, at)| Ask::Joint { unit, at })),
        "kappa" => Ok(unit_at(alloc, rest)?.map(|(unit, at)| Ask::Kappa { unit, at })),
        "cotail" => share_of_tail(alloc, rules, rest),
        _ => Ok(None),
    }
}

/// The share of a unit in a tail mean, by these rules.
fn share_of_tail(alloc: Global, rules: Rules, text: &str) -> Result<Option<Ask>, AllocError>
    ensures { IfOk result (λ ask. ask ≡ (share_of_tail rules).read text.now) }
{
    match rules {
        Rules::Standard => Ok(unit_level(alloc, text, 4)?.map(|(unit, p)| Ask::Cotail { unit, p })),
        Rules::Extended => Ok(unit_level(alloc, text, 9)?.map(|(unit, p)| Ask::Share { unit, p })),
    }
}

/// Terms of a price, joined by `+`: 1 to 8 of them, whose weights sum to 1.
fn price(alloc: Global, text: &str) -> Result<Option<Vec<Term>>, AllocError>
    ensures { IfOk result (λ all. option_map (λ t. t.items) all ≡ terms.read text.now) }
{
    let Some(terms) = read_terms(alloc, text)? else {
        return Ok(None);
    };
    if are_priced(alloc, terms.as_slice())? {
        return Ok(Some(terms));
    }
    Ok(None)
}

/// Terms joined by `+`, at most 8 of them.
fn read_terms(alloc: Global, text: &str) -> Result<Option<Vec<Term>>, AllocError>
    ensures { IfOk result (λ terms.
        option_map (λ t. t.items) terms ≡ joined plus term.read most_terms text.now) }
{
    let mut terms = Vec::new(alloc);
    let mut rest = text;
    for index in 0..MOST_TERMS {
        let Some((first, more)) = cut(rest, '+') else {
            return with_last(terms, rest);
        };
        let Some(term) = read_term(first) else {
            return Ok(None);
        };
        terms.push(term)?;
        rest = more;
    }
    Ok(None)
}

/// The terms, and one more.
fn with_last(terms: Vec<Term>, text: &str) -> Result<Option<Vec<Term>>, AllocError>
    ensures { IfOk result (λ all. option_map (λ t. t.items) all
        ≡ option_map (λ t. terms.items ++ t ∷ []) (term.read text.now)) }
{
    let mut terms = terms;
    let Some(term) = read_term(text) else {
        return Ok(None);
    };
    terms.push(term)?;
    Ok(Some(terms))
}

/// `W@P`.
fn read_term(text: &str) -> Option<Term>
    ensures { result ≡ term.read text.now }
{
    let (front, p) = cut(text, '@')?;
    let weight = weight(front)?;
    let p = probability(p, 9)?;
    Some(Term { weight, p })
}

/// `LxsA`.
fn layer(text: &str) -> Option<(Option<u32>, u32)>
    ensures { result ≡ layer.read text.now }
{
    let (front, rest) = cut(text, 'x')?;
    let limit = read_limit(front)?;
    let attach = amount(behind_s(rest)?)?;
    Some((limit, attach))
}

/// The text behind an `s` that begins it; none where it begins otherwise.
fn behind_s(text: &str) -> Option<&str>
    ensures { option_map (λ rest. rest.now) result ≡ behind_sign letter_s text.now }
{
    text.strip_prefix('s')
}

/// `L` with its amount, or `inf`.
fn read_limit(text: &str) -> Option<Option<u32>>
    ensures { result ≡ limit.read text.now }
{
    if text == "inf" {
        return Some(None);
    }
    match amount(text) {
        Some(limit) => Some(Some(limit)),
        None => None,
    }
}

/// `NAME:x`.
fn unit_at(alloc: Global, text: &str) -> Result<Option<(Text, u32)>, AllocError>
    ensures { IfOk result (λ parts. parts ≡ unit_amount.read text.now) }
{
    let Some((name, rest)) = cut(text, ':') else {
        return Ok(None);
    };
    if !is_word(name.as_bytes()) {
        return Ok(None);
    }
    let Some(at) = amount(rest) else {
        return Ok(None);
    };
    Ok(Some((Text::copy(alloc, name.as_bytes())?, at)))
}

/// `NAME:p`, with at most so many digits.
fn unit_level(alloc: Global, text: &str, digits: u32) -> Result<Option<(Text, Frac)>, AllocError>
    requires { digits ≤ 9 }
    ensures { IfOk result (λ parts. parts ≡ (unit_level digits).read text.now) }
{
    let Some((name, rest)) = cut(text, ':') else {
        return Ok(None);
    };
    if !is_word(name.as_bytes()) {
        return Ok(None);
    }
    let Some(p) = probability(rest, digits) else {
        return Ok(None);
    };
    Ok(Some((Text::copy(alloc, name.as_bytes())?, p)))
}

/// The text before the first `sign`, which is ASCII, and the text behind it; none without one.
fn cut(text: &str, sign: char) -> Option<(&str, &str)>
    requires { sign < 128 }
    ensures { option_map (λ cut. (cut.0.now, cut.1.now)) result ≡ cut_at sign text.now }
{
    text.split_once(sign)
}
