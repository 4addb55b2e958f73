//! Effects that move nodes or take them out, as a test.

use crate::parents::parents;
use crate::twelve_nodes::applied;
use page_engine::Effect;
use std::test::Fail;

/// Node, parent (99: it is removed), place, the parents after it.
const MOVES: [(u32, u32, u32, &[u32]); 9] = [
    (3, 99, 0, &[99, 0, 0, 99, 3, 2, 2, 6, 7, 99, 2, 99]),
    (0, 99, 0, &[99, 0, 0, 2, 3, 2, 2, 6, 7, 99, 2, 99]),
    (7, 99, 0, &[99, 0, 0, 2, 3, 2, 2, 6, 7, 99, 2, 99]),
    (70, 99, 0, &[99, 0, 0, 2, 3, 2, 2, 6, 7, 99, 2, 99]),
    (9, 7, 0, &[99, 0, 0, 2, 3, 2, 2, 6, 7, 7, 2, 99]),
    (3, 10, 5, &[99, 0, 0, 10, 3, 2, 2, 6, 7, 99, 2, 99]),
    (2, 8, 0, &[99, 0, 0, 2, 3, 2, 2, 6, 7, 99, 2, 99]),
    (9, 11, 0, &[99, 0, 0, 2, 3, 2, 2, 6, 7, 99, 2, 99]),
    (9, 70, 0, &[99, 0, 0, 2, 3, 2, 2, 6, 7, 99, 2, 99]),
];

#[test]
fn nodes_are_moved_and_taken_out(rt: HostRuntime) -> Result<(), Fail> {
    for (node, parent, place, expected) in MOVES {
        let effect = if parent == 99 {
            Effect::Remove { node }
        } else {
            Effect::Insert {
                node,
                parent,
                place,
            }
        };
        let page = applied(&rt, rt.alloc(), effect)?;
        parents(&rt, &page, expected);
    }
    Ok(())
}
