//! Selectors put together from pieces, in the order in which they are written.

use selectors::{Combinator, Complex, Compound, JoinList, Selector, Simple, Test};
use std::alloc::Global;
use std::test::Fail;
use wd_json::WdText;

/// A piece of a selector, as it is written: simples of one compound follow one another.
#[derive(Drop)]
pub enum Piece<'a> {
    Tag(&'a str),
    Any,
    Id(&'a str),
    Class(&'a str),
    Has(&'a str),
    Attr(&'a str, Test, &'a str),
    NotTag(&'a str),
    NotClass(&'a str),
    Nth(i64, i64),
    FirstChild,
    LastChild,
    Empty,
    Root,
    Checked,
    Enabled,
    Disabled,
    Join(Combinator),
    Or,
}

fn simple(alloc: Global, piece: &Piece) -> Result<Option<Simple>, Fail> {
    Ok(match piece {
        Piece::Tag(tag) => Some(Simple::Tag(WdText::of(alloc, tag)?)),
        Piece::Any => Some(Simple::Any),
        Piece::Id(id) => Some(Simple::Id(WdText::of(alloc, id)?)),
        Piece::Class(class) => Some(Simple::Class(WdText::of(alloc, class)?)),
        Piece::Has(name) => Some(Simple::Has(WdText::of(alloc, name)?)),
        Piece::Attr(name, test, text) => {
            let name = WdText::of(alloc, name)?;
            Some(Simple::Attr(name, *test, WdText::of(alloc, text)?))
        }
        Piece::NotTag(tag) => {
            let mut inner = Compound::new(alloc);
            inner.push(Simple::Tag(WdText::of(alloc, tag)?))?;
            Some(Simple::Not(inner))
        }
        Piece::NotClass(class) => {
            let mut inner = Compound::new(alloc);
            inner.push(Simple::Class(WdText::of(alloc, class)?))?;
            Some(Simple::Not(inner))
        }
        Piece::Nth(a, b) => Some(Simple::Nth(*a, *b)),
        Piece::FirstChild => Some(Simple::FirstChild),
        Piece::LastChild => Some(Simple::LastChild),
        Piece::Empty => Some(Simple::Empty),
        Piece::Root => Some(Simple::Root),
        Piece::Checked => Some(Simple::Checked),
        Piece::Enabled => Some(Simple::Enabled),
        Piece::Disabled => Some(Simple::Disabled),
        Piece::Join(_) => None,
        Piece::Or => None,
    })
}

/// A complex selector that is being put together: what stands before the last combinator, and the
/// compound that is open.
#[derive(Drop)]
struct Open {
    first: Option<Compound>,
    rest: JoinList,
    last: Combinator,
    compound: Compound,
}

fn opened(alloc: Global) -> Open {
    Open {
        first: None,
        rest: JoinList::new(alloc),
        last: Combinator::Child,
        compound: Compound::new(alloc),
    }
}

fn closed(open: Open) -> Result<Complex, Fail> {
    let Open {
        first,
        mut rest,
        last,
        compound,
    } = open;
    Ok(match first {
        None => Complex {
            first: compound,
            rest,
        },
        Some(first) => {
            rest.push((last, compound))?;
            Complex { first, rest }
        }
    })
}

fn joined(alloc: Global, open: Open, combinator: Combinator) -> Result<Open, Fail> {
    let Complex { first, rest } = closed(open)?;
    Ok(Open {
        first: Some(first),
        rest,
        last: combinator,
        compound: Compound::new(alloc),
    })
}

pub fn built(alloc: Global, pieces: &[Piece]) -> Result<Selector, Fail> {
    let mut selector = Selector::new(alloc);
    let mut open = opened(alloc);
    for piece in pieces {
        match piece {
            Piece::Or => {
                selector.push(closed(open)?)?;
                open = opened(alloc);
            }
            Piece::Join(combinator) => open = joined(alloc, open, *combinator)?,
            _ => {
                if let Some(simple) = simple(alloc, piece)? {
                    open.compound.push(simple)?;
                }
            }
        }
    }
    selector.push(closed(open)?)?;
    Ok(selector)
}
