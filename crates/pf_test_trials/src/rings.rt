//! A ring that is empty, full, and half taken.

use pf_base::Range;
use pf_rings::{Empty, Full, Request, Ring};
use std::test::Fail;

fn request(number: u32) -> Request {
    Request {
        host: 1,
        number,
        range: Range::none(),
        byte: 7,
    }
}

#[test]
fn requests_come_out_in_order(rt: HostRuntime) -> Result<(), Fail> {
    let (ring, mut host, mut server) = Ring::new(rt.alloc(), 1)?;
    assert_eq!(rt; ring.host, 1);
    assert_eq!(rt; ring.take(&rt, &mut server), Err(Empty));
    for number in 0..8 {
        assert_eq!(rt; ring.put(&rt, &mut host, request(number)), Ok(()));
    }
    assert_eq!(rt;
        ring.put(&rt, &mut host, request(8)),
        Err((request(8), Full))
    );
    for number in 0..3 {
        assert_eq!(rt; ring.take(&rt, &mut server), Ok(request(number)));
    }
    let (mut host, mut server) = ring.meet(host, server);
    assert_eq!(rt; ring.put(&rt, &mut host, request(9)), Ok(()));
    for number in [3, 4, 5, 6, 7, 9] {
        assert_eq!(rt; ring.take(&rt, &mut server), Ok(request(number)));
    }
    assert_eq!(rt; ring.take(&rt, &mut server), Err(Empty));
    Ok(())
}
