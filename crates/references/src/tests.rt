//! The layout of identifiers, the last serial, and references handed out again, as tests.

use crate::{Full, IdFault, Ids, Kind, Known, NodeName, id_text};
use std::alloc::Global;
use std::test::Fail;
use wd_json::{Memory, NodeId, NodeList};

// The layout by hand: 48 bits of run, 8, 12 bits of kind, 10, 30 bits of session, 32 of serial.
#[test]
fn identifiers_are_laid_out(rt: HostRuntime) -> Result<(), Fail> {
    let cases = [
        (Kind::Session, 0, "00000000-0001-8000-8000-000100000000"),
        (Kind::Window, 1, "00000000-0001-8001-8000-000100000001"),
        (Kind::Element, 2, "00000000-0001-8002-8000-000100000002"),
        (
            Kind::Shadow,
            4_294_967_294,
            "00000000-0001-8003-8000-0001fffffffe",
        ),
    ];
    for (kind, serial, text) in cases {
        let id = Ids::resume_at(1, 1, serial).next(kind)?;
        assert_eq!(rt; id_text(rt.alloc(), id)?.as_str(), text);
        assert!(rt; id.has_text(text));
    }
    let last = Ids::new(281_474_976_710_655, 1_073_741_823).next(Kind::Element)?;
    assert!(rt; last.has_text("ffffffff-ffff-8002-bfff-ffff00000000"));
    Ok(())
}

#[test]
fn the_last_serial_is_never_given(rt: HostRuntime) -> Result<(), Fail> {
    let mut none = Ids::resume_at(1, 1, 4_294_967_295);
    assert_eq!(rt; none.next(Kind::Element), Err(Full));
    assert_eq!(rt; none.next(Kind::Element), Err(Full));
    let mut one = Ids::resume_at(1, 1, 4_294_967_294);
    assert!(rt;
        one.next(Kind::Element)?
            .has_text("00000000-0001-8002-8000-0001fffffffe")
    );
    assert_eq!(rt; one.next(Kind::Element), Err(Full));
    Ok(())
}

#[test]
fn a_node_has_one_reference(rt: HostRuntime) -> Result<(), Fail> {
    let mut ids = Ids::new(1, 1);
    let session = ids.next(Kind::Session)?;
    assert!(rt; session.has_text("00000000-0001-8000-8000-000100000000"));
    let mut known = Known::new(rt.alloc(), ids);
    let window = known.window()?;
    assert!(rt; window.has_text("00000000-0001-8001-8000-000100000001"));
    let node = NodeName {
        document: 3,
        node: 5,
    };
    let id = known.hand_out(Kind::Element, node)?;
    assert!(rt; id.has_text("00000000-0001-8002-8000-000100000002"));
    assert_eq!(rt; known.hand_out(Kind::Element, node)?, id);
    assert_eq!(rt; known.left(), 4_294_967_292);
    assert!(rt; known.holds(Kind::Element, node));
    assert!(rt; !known.holds(Kind::Shadow, node));
    let cases = [
        (
            Kind::Element,
            "00000000-0001-8002-8000-000100000002",
            Some(node),
        ),
        (Kind::Shadow, "00000000-0001-8002-8000-000100000002", None),
        (Kind::Element, "00000000-0001-8001-8000-000100000001", None),
        (Kind::Element, "00000000-0001-8002-8000-000200000002", None),
        (Kind::Element, "00000000-0001-8002-8000-000100000003", None),
        (Kind::Element, "", None),
    ];
    for (kind, text, found) in cases {
        assert_eq!(rt; known.find(kind, text), found, "at {text}");
    }
    Ok(())
}

#[test]
fn an_upper_case_text_is_unknown(rt: HostRuntime) -> Result<(), Fail> {
    let mut known = Known::new(rt.alloc(), Ids::resume_at(10, 1, 0));
    let node = NodeName {
        document: 1,
        node: 1,
    };
    let id = known.hand_out(Kind::Element, node)?;
    assert!(rt; id.has_text("00000000-000a-8002-8000-000100000000"));
    let lower = "00000000-000a-8002-8000-000100000000";
    let upper = "00000000-000A-8002-8000-000100000000";
    assert_eq!(rt; known.find(Kind::Element, lower), Some(node));
    assert_eq!(rt; known.find(Kind::Element, upper), None);
    assert!(rt; !known.spent());
    Ok(())
}

fn nodes(alloc: Global, numbers: &[u32]) -> Result<NodeList, Memory> {
    let mut list = NodeList::new(alloc);
    for number in numbers {
        list.push(NodeId::of(*number))?;
    }
    Ok(list)
}

#[test]
fn a_list_is_handed_out_whole_or_not_at_all(rt: HostRuntime) -> Result<(), Fail> {
    let alloc = rt.alloc();
    let mut known = Known::new(alloc, Ids::resume_at(1, 1, 4_294_967_292));
    let one = NodeName {
        document: 2,
        node: 1,
    };
    drop(known.hand_out(Kind::Element, one)?);
    let ids = known.hand_out_all(Kind::Element, 2, &nodes(alloc, &[5, 5, 7, 1])?)?;
    let texts = [
        "00000000-0001-8002-8000-0001fffffffd",
        "00000000-0001-8002-8000-0001fffffffd",
        "00000000-0001-8002-8000-0001fffffffe",
        "00000000-0001-8002-8000-0001fffffffc",
    ];
    assert_eq!(rt; ids.len(), 4);
    for (id, text) in ids.as_slice().iter().zip(&texts) {
        assert!(rt; id.has_text(text), "{text}");
    }
    assert_eq!(rt; known.left(), 0);
    let again = known.hand_out_all(Kind::Element, 2, &nodes(alloc, &[7, 1])?)?;
    assert_eq!(rt; again.len(), 2);

    let mut short = Known::new(alloc, Ids::resume_at(1, 1, 4_294_967_294));
    match short.hand_out_all(Kind::Shadow, 2, &nodes(alloc, &[5, 7])?) {
        Ok(_) => assert!(rt; false, "one serial was left for two nodes"),
        Err(fault) => assert_eq!(rt; fault, IdFault::Full),
    }
    assert_eq!(rt; short.left(), 1);
    Ok(())
}
