//! A queue in one thread's hands.

use sgm_queue::Queue;
use std::test::Fail;

#[test]
fn what_two_passes_push_comes_out_once(rt: HostRuntime) -> Result<(), Fail> {
    let (queue, mut mine) = Queue::start(rt.alloc(), 2)?;
    let mut other = queue.share(&mut mine);
    assert!(rt; queue.push(&rt, &mut mine, 7u32) == Ok(()));
    assert!(rt; queue.push(&rt, &mut other, 9) == Ok(()));
    assert!(rt; queue.push(&rt, &mut other, 8) == Err(8));
    queue.join(&mut mine, other);
    assert!(rt; queue.pop(&rt, &mut mine) == Some(7));
    assert!(rt; queue.push(&rt, &mut mine, 8) == Ok(()));
    assert!(rt; queue.pop(&rt, &mut mine) == Some(9));
    assert!(rt; queue.pop(&rt, &mut mine) == Some(8));
    assert!(rt; queue.pop(&rt, &mut mine) == None);
    Ok(())
}
