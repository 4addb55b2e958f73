//! The page that the value of its file spells.

ghost use Rattle.std.specs.Prelude.{◌≡◌, IfOk, IfErr, Ok};
ghost use Rattle.page_engine.specs.Pages.{IsLawfulPage};
ghost use Rattle.page_file.specs.PageSpelled.{page_of};
ghost use Rattle.page_file.specs.Rows.{IsFaultOf};

use crate::nodes::read_nodes;
use crate::page_fault::PageFault;
use crate::parts::parts_of;
use crate::scripts::read_scripts;
use crate::timers::read_timers;
use crate::why::Why;
use page_engine::PageDef;
use std::alloc::Global;
use wd_json::{Json, WdText};

/// The page that the value of its file spells, at that serialised address: each value in its lists
/// one node, timer or answer to a script, and all of them lawful.
///
/// `Bad` with the first thing that is wrong: `Shape` at 0 for the top object, then the nodes by
/// their places, then the timers, then the scripts. `Memory` where there is no memory for it.
pub(crate) fn read_page(alloc: Global, value: &Json, address: &WdText) -> Result<PageDef, PageFault>
    ensures page { IfOk result (λ page. page_of address.now value.now ≡ Ok page) }
    ensures lawful { IfOk result IsLawfulPage }
    ensures cause { IfErr result (IsFaultOf (page_of address.now value.now)) }
{
    let Some(parts) = parts_of(value) else {
        return Err(PageFault::Bad {
            row: 0,
            why: Why::Shape,
        });
    };
    let nodes = read_nodes(alloc, parts.nodes)?;
    let timers = read_timers(alloc, parts.timers)?;
    let book = read_scripts(alloc, parts.scripts)?;
    let address = address.copy(alloc)?;
    Ok(PageDef {
        address,
        nodes,
        timers,
        book,
        eager: parts.eager,
        load: parts.load,
    })
}
