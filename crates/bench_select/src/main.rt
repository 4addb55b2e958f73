//! For bench/select: makes a page of so many elements, every third of them with the class `x`, and then
//! selects by that class, or goes over the page with nothing but a look at the class, so many times
//! over. Its words are `select` or `walk`, the number of elements and the number of times. It
//! prints how many elements were found in all.
#![tactic(auto)]

use page_tree::{Document, TreeFault};
use selectors::{Complex, Compound, JoinList, Scope, Selector, Simple, select};
use std::alloc::Global;
use std::{env, io};
use wd_json::{Memory, NodeId, WdText};

/// Adds an element under another, with the class where it is asked for.
fn add(page: &mut Document, under: u32, with_class: bool) -> Result<(), TreeFault> {
    if page.spent() {
        return Err(TreeFault::Memory);
    }
    let node = page.add_element("p")?;
    let up = NodeId::of(under);
    if page.spent()
        || node.number() == 0
        || node.number() >= page.count()
        || under >= page.count()
    {
        return Err(TreeFault::Nodes);
    }
    if page.is_shadow(node) || page.text(up).is_some() || page.tag(node).is_none() {
        return Err(TreeFault::Cycle);
    }
    if with_class {
        page.set_attr(node, "class", Some("x"))?;
    }
    if page.spent() || node.number() >= page.count() || under >= page.count() {
        return Err(TreeFault::Nodes);
    }
    if page.is_shadow(node) || page.text(up).is_some() {
        return Err(TreeFault::Cycle);
    }
    page.insert(node, up, 1000)
}

/// A page whose elements have ten children each.
fn page_of(alloc: Global, elements: u32) -> Result<Document, TreeFault> {
    let mut page = Document::new(alloc, "html")?;
    for number in 1..elements {
        add(&mut page, (number - 1) / 10, number % 3 == 0)?;
    }
    Ok(page)
}

/// The selector `.x`.
fn by_class(alloc: Global) -> Result<Selector, Memory> {
    let mut first = Compound::new(alloc);
    first.push(Simple::Class(WdText::of(alloc, "x")?))?;
    let mut selector = Selector::new(alloc);
    selector.push(Complex {
        first,
        rest: JoinList::new(alloc),
    })?;
    Ok(selector)
}

fn selected(alloc: Global, page: &Document, selector: &Selector) -> Result<usize, Memory> {
    if page.spent() {
        return Err(Memory);
    }
    Ok(select(alloc, page, Scope::Document, selector)?.len())
}

fn walked(page: &Document) -> Result<usize, Memory> {
    if page.spent() {
        return Err(Memory);
    }
    let mut found = 0usize;
    for node in page.in_order()?.as_slice() {
        if page.attr(*node, "class") == Some("x") {
            found = found.saturating_add(1);
        }
    }
    Ok(found)
}

fn main(rt: HostRuntime) -> io::Result<()> {
    let alloc = rt.alloc();
    let mut words = Vec::new(alloc);
    for word in env::args(&rt)? {
        words.push(word)?;
    }
    let kind = match words.get(1) {
        Some(word) => word.as_str(),
        None => "select",
    };
    let elements = match words.get(2) {
        Some(word) => word.as_str().parse::<u32>().unwrap_or(1),
        None => 1,
    };
    let times = match words.get(3) {
        Some(word) => word.as_str().parse::<u64>().unwrap_or(1),
        None => 1,
    };
    let mut found = 0usize;
    if let (Ok(page), Ok(selector)) = (page_of(alloc, elements), by_class(alloc)) {
        for _ in 0..times {
            let some = match kind {
                "select" => selected(alloc, &page, &selector),
                _ => walked(&page),
            };
            found = found.saturating_add(some.unwrap_or(0));
        }
    }
    println!(rt; "{found}")
}
