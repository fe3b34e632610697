// The recorded order of three slots, worked out by hand.

use order_graph::OrderGraph;
use std::test::Fail;

#[test]
fn two_pairs_in_a_row(rt: HostRuntime) -> Result<(), Fail> {
    let mut order = OrderGraph::new(rt.alloc(), 3)?;
    order.link(0, 1, 7);
    order.link(1, 2, 8);
    assert!(rt; !order.precedes(1, 0));
    order.link(0, 1, 9);
    assert!(rt;
        order.precedes(0, 2) && order.node_of(0, 1) == Some(7) && order.node_of(0, 2).is_none()
    );
    assert!(rt; order.next_before(2, 0) == Some(1));
    assert!(rt; order.next_before(0, 0).is_none());
    order.retire(0);
    assert!(rt; !order.precedes(0, 2) && order.precedes(1, 2));
    Ok(())
}
