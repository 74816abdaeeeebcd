// When two workers meet at a gate.
use gp_outside::{Gate, HoldGate};

fn pass_all<G: Gate + Sync>(gate: &G, workers: &[u32]) {
    for (ticket, worker) in workers.iter().enumerate() {
        gate.pass(*worker, ticket as u64);
    }
}

#[test]
fn workers_meet_where_the_second_comes_before_the_turns_are_spent(rt: HostRuntime) {
    for (turns, workers, met) in [
        (3, [2u32, 1].as_slice(), true),
        (3, &[1, 2], false),
        (3, &[1, 2, 1, 2], false),
        (0, &[2, 1], true),
        (0, &[1, 2], false),
        (u64::MAX, &[3, 2, 1, 1], true),
        (u64::MAX, &[3], false),
    ] {
        let gate = HoldGate::new(turns);
        pass_all(&gate, workers);
        assert!(rt; gate.met() == met, "{turns}");
    }
}
