use super::gathered;
use std::test::Fail;

#[test]
fn each_thread_adds_its_numbers_in_order(rt: HostRuntime) -> Result<(), Fail> {
    for (actors, turns) in [(2u32, 3u32), (1, 1), (3, 0), (66, 1000)] {
        let log = gathered(&rt, rt.alloc(), actors, turns, 1)?;
        let mut next = [0u32; 66];
        for (actor, number) in &log.pairs {
            let at = *actor as usize;
            assert!(rt;
                at < 66 && *number == next[at],
                "actor {actor} adds {number}"
            );
            next[at] = number.wrapping_add(1);
        }
        for (at, count) in next.iter().enumerate() {
            let wanted = if at < actors as usize { turns } else { 0 };
            assert_eq!(rt; *count, wanted, "of actor {at}");
        }
    }
    Ok(())
}
