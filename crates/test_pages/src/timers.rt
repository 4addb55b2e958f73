//! The order in which timers run, by moment, number and making, as tests.

use crate::twelve_nodes::opened;
use page_engine::{Due, Effect, EffectList, Page};
use std::alloc::Global;
use std::process::Abort;
use std::test::Fail;
use wd_json::NodeId;

/// A script that starts a timer, due so many milliseconds later, which puts node 3 into that layer.
fn after(alloc: Global, ms: u64, layer: i32) -> Result<EffectList, Fail> {
    let mut effects = EffectList::new(alloc);
    effects.push(Effect::Layer { node: 3, layer })?;
    let mut script = EffectList::new(alloc);
    script.push(Effect::After { ms, effects })?;
    Ok(script)
}

/// Runs the timers one after another: each has that moment and that number, and puts node 3 into that
/// layer.
fn run(rt: &impl Abort, page: &mut Page, expected: &[(u64, u64, i32)]) -> Result<(), Fail> {
    for (moment, number, layer) in expected {
        assert!(rt; !page.spent());
        let due = page.next_due();
        assert_eq!(rt;
            due,
            Some(Due {
                moment: *moment,
                number: *number
            })
        );
        assert!(rt; *moment <= 60);
        drop(page.run_due(*moment)?);
        assert!(rt; !page.spent());
        assert!(rt; page.document().count() > 3);
        assert_eq!(rt; page.document().layer(NodeId::of(3)), *layer);
    }
    assert!(rt; !page.spent());
    assert!(rt; page.next_due().is_none());
    Ok(())
}

#[test]
fn timers_run_by_moment_and_number(rt: HostRuntime) -> Result<(), Fail> {
    let alloc = rt.alloc();
    let mut page = opened(alloc)?;
    for (moment, number, layer) in [(40, 8, 1), (60, 7, 2)] {
        assert!(rt; !page.spent());
        let due = page.next_due();
        assert_eq!(rt; due, Some(Due { moment, number }));
        drop(page.run_due(moment)?);
        assert!(rt; !page.spent());
        assert!(rt; page.document().count() > 3);
        assert_eq!(rt; page.document().layer(NodeId::of(3)), layer);
    }
    Ok(())
}

#[test]
fn timers_with_one_moment_and_one_number_run_as_they_were_made(
    rt: HostRuntime,
) -> Result<(), Fail> {
    let alloc = rt.alloc();
    let mut page = opened(alloc)?;
    for layer in [5, 4, 6] {
        assert!(rt; !page.spent());
        let outcome = page.apply(&after(alloc, 10, layer)?, 0, 9)?;
        assert_eq!(rt; outcome.made, 1);
    }
    run(
        &rt,
        &mut page,
        &[(10, 9, 5), (10, 9, 4), (10, 9, 6), (40, 8, 1), (60, 7, 2)],
    )
}

#[test]
fn the_first_timer_is_due_before_all_others(rt: HostRuntime) -> Result<(), Fail> {
    let alloc = rt.alloc();
    let mut page = opened(alloc)?;
    // how many milliseconds later, the number, the layer
    for (ms, number, layer) in [(45, 9, 3), (40, 9, 4), (40, 7, 5), (15, 9, 6), (60, 3, 7)] {
        page.law();
        assert!(rt; !page.spent());
        drop(page.apply(&after(alloc, ms, layer)?, 0, number)?);
    }
    page.law();
    run(
        &rt,
        &mut page,
        &[
            (15, 9, 6),
            (40, 7, 5),
            (40, 8, 1),
            (40, 9, 4),
            (45, 9, 3),
            (60, 3, 7),
            (60, 7, 2),
        ],
    )
}
