//! Tests of what judges a trace: that its halves run beside each other, and whole audits over memory.
#![tactic(auto)]

#[cfg(test)]
mod tests {
    use node_links::{MemorySink, MemorySource};
    use par_halves::{Gate, NoGate, map_halves};
    use std::sync::atomic::{AtomicBool, Ordering};
    use std::test::Fail;
    use trace_audit::audit_text;
    use xt_base::{CallList, Octets};

    /// Holds the first item until the last one has begun, for a while at most.
    #[derive(Drop)]
    struct LastFirst {
        last: u64,
        begun: AtomicBool,
        seen: AtomicBool,
    }

    impl Gate for LastFirst {
        fn begun(&self, index: u64) {
            if index == self.last {
                self.begun.store(true, Ordering::SeqCst);
            }
            if index == 0 {
                for _ in 0..100_000_000u32 {
                    if self.begun.load(Ordering::SeqCst) {
                        self.seen.store(true, Ordering::SeqCst);
                        break;
                    }
                }
            }
        }
    }

    fn gate(last: u64) -> LastFirst {
        LastFirst {
            last,
            begun: AtomicBool::new(false),
            seen: AtomicBool::new(false),
        }
    }

    #[test]
    fn two_items_run_beside_each_other(rt: HostRuntime) -> Result<(), Fail> {
        let held = gate(1);
        let given = map_halves(&rt, rt.alloc(), &[20u8, 40], &|x: &u8| *x / 2, &held)?;
        assert_eq!(rt; given.as_slice(), [10u8, 20].as_slice());
        assert!(rt; held.seen.load(Ordering::SeqCst));
        Ok(())
    }

    #[test]
    fn seven_items_keep_their_order(rt: HostRuntime) -> Result<(), Fail> {
        let held = gate(6);
        let items = [2u8, 4, 6, 8, 10, 12, 14];
        let given = map_halves(&rt, rt.alloc(), &items, &|x: &u8| *x / 2, &held)?;
        assert_eq!(rt; given.as_slice(), [1u8, 2, 3, 4, 5, 6, 7].as_slice());
        assert!(rt; held.seen.load(Ordering::SeqCst));
        let none: [u8; 0] = [];
        let nothing = map_halves(&rt, rt.alloc(), &none, &|x: &u8| *x / 2, &NoGate)?;
        assert!(rt; nothing.is_empty());
        Ok(())
    }

    /// Two replicated files of one node, which holds both.
    const TWO_FILES: &[u8] =
        b"times 1000 100\nup 1 1 0\nfile 1 rep 1024 1\nfile 2 rep 1024 1\nheld 1 1 1000\nheld 1 2 1000\n";

    #[test]
    fn two_files_are_judged_beside_each_other(rt: HostRuntime) -> Result<(), Fail> {
        let held = gate(1);
        let text = Octets::of(rt.alloc(), TWO_FILES)?;
        let mut source = MemorySource::new(text, 7, CallList::new(rt.alloc()));
        let mut sink = MemorySink::new(rt.alloc(), 100, CallList::new(rt.alloc()))?;
        let status = audit_text(&rt, rt.alloc(), &mut source, &mut sink, &held);
        assert_eq!(rt; status.code(), 0);
        assert_eq!(rt; sink.as_slice(), b"safe\n".as_slice());
        assert!(rt; held.seen.load(Ordering::SeqCst));
        Ok(())
    }

    /// Node 2 holds file 2 beside node 1, by the ninth entry. That the file's list was changed says nothing of it.
    const TWO_HOLDERS: &[u8] =
        b"times 1000 100\nup 1 1 0\nup 2 1 0\nfile 1 rep 1024 1 2\nfile 2 rep 1024 1 2\nheld 1 1 1000\nheld 1 2 1000\nlist 2 2 2 1\nheld 2 2 1000\n";

    #[test]
    fn the_broken_file_gives_the_verdict(rt: HostRuntime) -> Result<(), Fail> {
        let text = Octets::of(rt.alloc(), TWO_HOLDERS)?;
        let mut source = MemorySource::new(text, 4_096, CallList::new(rt.alloc()));
        let mut sink = MemorySink::new(rt.alloc(), 100, CallList::new(rt.alloc()))?;
        let status = audit_text(&rt, rt.alloc(), &mut source, &mut sink, &NoGate);
        assert_eq!(rt; status.code(), 17);
        assert_eq!(rt; sink.as_slice(), b"! broken 5 9\n".as_slice());
        Ok(())
    }
}
