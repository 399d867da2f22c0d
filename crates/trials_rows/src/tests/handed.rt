//! A completion that is handed over on one thread. rust/trials/tests/handed.rs has more tests, of the plain Rust.
use run_queues::{CompletionQueue, Numbered};
use std::test::Fail;

/// A number, with a value beside it.
#[derive(Drop)]
struct Valued {
    number: u32,
    value: u64,
}

impl Numbered for Valued {
    ghost number = { λ v. v.number };

    fn number(&self) -> u32 {
        self.number
    }
}

#[test]
fn none_is_there_yet(rt: HostRuntime) -> Result<(), Fail> {
    let (queue, mut collector) = CompletionQueue::new(rt.alloc(), 1)?;
    assert!(rt; queue.try_collect(&rt, &mut collector).is_none());
    let token = queue.token(&mut collector, 0);
    assert!(rt; queue.try_collect(&rt, &mut collector).is_none());
    queue.tell(
        &rt,
        token,
        Valued {
            number: 0,
            value: 7,
        },
    );
    let Some(completion) = queue.try_collect(&rt, &mut collector) else {
        return Err("a completion".into());
    };
    assert_eq!(rt; (completion.number, completion.value), (0, 7));
    assert!(rt; queue.try_collect(&rt, &mut collector).is_none());
    Ok(())
}
