//! The page `about:blank`.

ghost use Rattle.std.specs.Prelude.{◌≡◌, None, IfOk};
ghost use Rattle.page_engine.specs.Blank.{blank_elements, blank_page};
ghost use Rattle.page_engine.specs.Pages.{IsLawfulPage};

use crate::built_in::{ascii, bare_page, element};
use crate::page_def::{AttrList, NodeDefList, PageDef};
use std::alloc::Global;
use wd_json::Memory;

/// `about:blank`, which is in every site: html with head and body, without boxes and timers. It keeps
/// the rules of a page. `Memory` where there is none for it (HTML Standard, "Creating browsing
/// contexts").
pub fn blank_page(alloc: Global) -> Result<PageDef, Memory>
    ensures page { IfOk result (λ page. page ≡ blank_page) }
    ensures lawful { IfOk result IsLawfulPage }
{
    let address = ascii(alloc, "about:blank")?;
    let nodes = elements(alloc)?;
    Ok(bare_page(alloc, address, nodes))
}

#[tactic(auto, unfolding(crate::specs::Blank::blank_elements))]
fn elements(alloc: Global) -> Result<NodeDefList, Memory>
    ensures { IfOk result (λ nodes. nodes ≡ blank_elements) }
{
    let mut nodes = NodeDefList::new(alloc);
    nodes.push(element(alloc, "html", None, AttrList::new(alloc), None)?)?;
    nodes.push(element(alloc, "head", Some(0), AttrList::new(alloc), None)?)?;
    nodes.push(element(alloc, "body", Some(0), AttrList::new(alloc), None)?)?;
    Ok(nodes)
}
