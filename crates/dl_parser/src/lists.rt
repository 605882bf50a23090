//! Lists of numbers.

ghost use Rattle.std.specs.Prelude.{◌≡◌, IfOk, IfErr};
ghost use Rattle.dl_ast.specs.Rules.{◌▸◌, maybe};
ghost use Rattle.dl_parser.specs.Factored.{bounds, item_of, list, step};
ghost use Rattle.dl_parser.specs.Parsing.{ReadsBy};

use crate::cursor::Parser;
use crate::parts::Part;
use crate::stop::Stop;
use dl_ast::{ListAst, ListItem, Numeral};
use dl_lexer::{Kind, Rare, Sign, Span, pair_of};
use std::alloc::Global;

/// The item of a number and of what follows it: the end of a range, and its step.
fn item_of(
    alloc: Global,
    from: Numeral,
    bounds: Option<(Numeral, Option<Numeral>)>,
    span: Span,
) -> Result<ListItem, Stop>
    ensures item { IfOk result (λ item. item ≡ item_of (from, bounds) span) }
    ensures stop { IfErr result (λ stop. stop ≡ Stop.OutOfMemory) }
{
    let (to, step) = match bounds {
        Some((to, step)) => (Some(to), step),
        None => (None, None),
    };
    let (to, step) = pair_of(Rare::new(alloc, to)?, Rare::new(alloc, step))?;
    Ok(ListItem {
        from,
        to,
        step,
        span,
    })
}

impl<'a> Parser<'a> {
    /// `(':' NUMERAL)?`
    #[tactic(auto, unfolding(dl_ast::specs::Grammar::numeral))]
    fn step(&mut self) -> Result<Option<Numeral>, Stop>
        ensures source { self.new.source ≡ self.old.source }
        ensures reads { ReadsBy step self.old self.new result }
    {
        if !self.is_next(Kind::Sign(Sign::Colon)) {
            return Ok(None);
        }
        Ok(Some(self.numeral_behind(Kind::Sign(Sign::Colon))?))
    }

    /// `(':' NUMERAL (':' NUMERAL)?)?`
    #[tactic(auto, unfolding(dl_ast::specs::Grammar::numeral))]
    fn bounds(&mut self) -> Result<Option<(Numeral, Option<Numeral>)>, Stop>
        ensures source { self.new.source ≡ self.old.source }
        ensures reads { ReadsBy bounds self.old self.new result }
    {
        if !self.is_next(Kind::Sign(Sign::Colon)) {
            return Ok(None);
        }
        self.take(Kind::Sign(Sign::Colon))?;
        Ok(Some(pair_of(self.numeral()?, self.step())?))
    }
}

impl Part for ListItem {
    ghost use Rattle.dl_parser.specs.Plain as grammar;
    ghost use Rattle.dl_parser.specs.Factored.{item, next_item};

    ghost first_rule = { item };

    ghost next_rule = { next_item };

    /// `NUMERAL | NUMERAL ':' NUMERAL | NUMERAL ':' NUMERAL ':' NUMERAL`
    #[tactic(auto, unfolding(crate::specs::Factored::item))]
    fn first(parser: &mut Parser<'_>) -> Result<ListItem, Stop> {
        let start = parser.start();
        let (from, bounds) = pair_of(parser.numeral()?, parser.bounds())?;
        item_of(parser.alloc, from, bounds, parser.since(start))
    }

    /// `','? item`
    #[tactic(auto, unfolding(crate::specs::Factored::next_item))]
    fn next(parser: &mut Parser<'_>) -> Result<ListItem, Stop> {
        if parser.is_next(Kind::Sign(Sign::Comma)) {
            parser.take(Kind::Sign(Sign::Comma))?;
        }
        ListItem::first(parser)
    }

    #[tactic(auto, unfolding(crate::specs::Factored::next_item, crate::specs::Factored::item, dl_ast::specs::Grammar::numeral,))]
    fn is_next(parser: &Parser<'_>) -> bool {
        parser.is_next(Kind::Sign(Sign::Comma)) || parser.is_next(Kind::Numeral)
    }

    ghost plain = { grammar.plain.by_items };
}

impl<'a> Parser<'a> {
    /// `'[' item (','? item)* ']'`
    #[tactic(auto, unfolding(crate::specs::Factored::list, crate::specs::Factored::items))]
    pub(crate) fn list(&mut self) -> Result<ListAst, Stop>
        ensures source { self.new.source ≡ self.old.source }
        ensures reads { ReadsBy list self.old self.new result }
    {
        let start = self.start();
        self.take(Kind::Sign(Sign::Open))?;
        let (items, _) = pair_of(self.parts()?, self.take(Kind::Sign(Sign::Close)))?;
        Ok(ListAst {
            items,
            span: self.since(start),
        })
    }

    /// `list list?`
    pub(crate) fn lists(&mut self) -> Result<(ListAst, Option<ListAst>), Stop>
        ensures source { self.new.source ≡ self.old.source }
        ensures reads { ReadsBy (list ▸ maybe list) self.old self.new result }
    {
        pair_of(self.list()?, self.list_option())
    }

    /// `list?`
    #[tactic(auto, unfolding(crate::specs::Factored::list))]
    fn list_option(&mut self) -> Result<Option<ListAst>, Stop>
        ensures source { self.new.source ≡ self.old.source }
        ensures reads { ReadsBy (maybe list) self.old self.new result }
    {
        if !self.is_next(Kind::Sign(Sign::Open)) {
            return Ok(None);
        }
        Ok(Some(self.list()?))
    }
}
