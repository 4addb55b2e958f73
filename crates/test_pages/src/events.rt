//! A click that goes through a shadow root, as a test.

use crate::parents::parents;
use crate::twelve_nodes::opened;
use page_engine::{Due, Event, EventKind};
use std::test::Fail;
use wd_json::NodeId;

#[test]
fn a_click_goes_through_a_shadow_root(rt: HostRuntime) -> Result<(), Fail> {
    let alloc = rt.alloc();
    let mut page = opened(alloc)?;
    let event = Event::Plain {
        kind: EventKind::Click,
        target: NodeId::of(8),
    };
    assert!(rt; !page.spent());
    let outcome = page.dispatch(&event, 5, 9)?;
    assert_eq!(rt; outcome.made, 1);
    parents(&rt, &page, &[99, 0, 0, 2, 3, 2, 2, 6, 99, 99, 2, 99]);
    assert!(rt; !page.spent());
    assert_eq!(rt;
        page.next_due(),
        Some(Due {
            moment: 15,
            number: 9
        })
    );
    assert_eq!(rt; page.log().len(), 1);
    assert!(rt; page.log().len() > 0);
    assert_eq!(rt; page.log().at(0).as_str(), "click 8");
    Ok(())
}
