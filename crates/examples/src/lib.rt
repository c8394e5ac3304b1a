// Examples of what the libraries do, as tests.
#![tactic(auto)]

#[cfg(test)]
mod lines {
    use std::test::Fail;
    use text::lines::Lines;
    use text::reads::{hex_bytes, number, split_line, split_word};
    use text::writes::{push_hex, push_number, push_text};

    #[test]
    fn lines_and_words(rt: HostRuntime) {
        let (line, rest) = split_line(b"set  1\nend");
        assert_eq!(rt; line, b"set  1".as_slice());
        assert_eq!(rt; rest, b"end".as_slice());
        let (word, rest) = split_word(b"  set  1");
        assert_eq!(rt; word, b"set".as_slice());
        assert_eq!(rt; rest, b"  1".as_slice());
    }

    #[test]
    fn numbered_lines(rt: HostRuntime) -> Result<(), Fail> {
        let mut lines = Lines::of(b"set\n\nend");
        let first = lines.next().ok_or("no line")?;
        assert_eq!(rt; first.number, 1);
        assert_eq!(rt; first.text, b"set".as_slice());
        let second = lines.next().ok_or("no second line")?;
        assert_eq!(rt; second.number, 2);
        assert!(rt; second.text.is_empty());
        assert_eq!(rt; lines.count(), 1);
        Ok(())
    }

    #[test]
    fn numbers(rt: HostRuntime) {
        assert_eq!(rt; number(b"0018446744073709551615"), Some(u64::MAX));
        assert_eq!(rt; number(b"18446744073709551616"), None);
        assert_eq!(rt; number(b""), None);
        assert_eq!(rt; number(b"1x"), None);
    }

    #[test]
    fn written(rt: HostRuntime) -> Result<(), Fail> {
        let heap = rt.alloc();
        let bytes = hex_bytes(heap, b"00ff")?.ok_or("not hexadecimal")?;
        let mut out = Vec::new(heap);
        push_text(&mut out, b"n ")?;
        push_number(&mut out, 2090)?;
        push_text(&mut out, b" ")?;
        push_hex(&mut out, bytes.as_slice())?;
        push_hex(&mut out, b"")?;
        assert_eq!(rt; out.as_slice(), b"n 2090 00ff-".as_slice());
        assert!(rt; hex_bytes(heap, b"0F")?.is_none());
        Ok(())
    }
}

#[cfg(test)]
mod scripts {
    use bench::benches::Bench;
    use playing::benchlines::find_bench;
    use playing::memory::SetupMemory;
    use playing::runs::play_script;
    use std::test::Fail;
    use text::lines::Lines;

    #[test]
    fn zeroed_benches(rt: HostRuntime) -> Result<(), Fail> {
        let found = find_bench(Lines::of(b"\nbench row 1 9 7 + bench word 8 6\nleft"));
        let (setup, mut rest) = found.ok().flatten().ok_or("no bench")?;
        let next = rest.next().ok_or("no line after it")?;
        assert_eq!(rt; next.number, 3);
        assert_eq!(rt; next.text, b"left".as_slice());
        let mut memory = SetupMemory::zeros(rt.alloc(), setup)?;
        let bench = memory.bench();
        assert_eq!(rt; bench.registers(), 8);
        assert_eq!(rt; bench.lanes(), 73);
        assert_eq!(rt; bench.left(), 6);
        assert_eq!(rt; bench.show(7, 72).ok(), Some(false));
        Ok(())
    }

    #[test]
    fn every_lane_of_a_word(rt: HostRuntime) -> Result<(), Fail> {
        let script =
            b"bench word 208 1\npage 00010001000003000000000000\nplay 200 200\nshow 200 0\nshow 200 31\nshow 200 63\nleft";
        let written = play_script(rt.alloc(), script)?;
        assert_eq!(rt;
            written.as_slice(),
            b"page 1 1 0\nok\nbit 1\nbit 1\nbit 1\nleft 0\n".as_slice()
        );
        Ok(())
    }

    #[test]
    fn bench_lines(rt: HostRuntime) -> Result<(), Fail> {
        let heap = rt.alloc();
        assert_eq!(rt;
            play_script(heap, b"# no bench\n\n")?.as_slice(),
            b"".as_slice()
        );
        assert_eq!(rt;
            play_script(heap, b"\nbench word 8\nleft\n")?.as_slice(),
            b"unreadable 2\n".as_slice()
        );
        assert_eq!(rt;
            play_script(
                heap,
                b"bench row 1 9 7 + bench word 8 9999999999\nlanes\nleft",
            )?
            .as_slice(),
            b"lanes 73\nleft 7\n".as_slice()
        );
        assert_eq!(rt;
            play_script(heap, b"bench word 2305843009213693952 1\nleft")?.as_slice(),
            b"no memory\n".as_slice()
        );
        Ok(())
    }
}

#[cfg(test)]
mod sealed {
    use sealing::texts::{TEXT, seal_text};
    use std::test::Fail;

    #[test]
    fn other_buffer(rt: HostRuntime) -> Result<(), Fail> {
        let mut out = [7u8; 5];
        let fault = seal_text(&[0u8; 32], &mut out).err().ok_or("taken")?;
        assert_eq!(rt; fault.number(), 6);
        assert_eq!(rt; fault.place, 5);
        assert_eq!(rt; out, [7u8; 5]);
        Ok(())
    }

    #[test]
    fn other_input(rt: HostRuntime) -> Result<(), Fail> {
        let mut out = [7u8; TEXT];
        let length = seal_text(&[0u8; 17], &mut out).ok().ok_or("refused")?;
        assert_eq!(rt; length, 10);
        assert_eq!(rt; &out[0..12], b"refused 6\n\x07\x07".as_slice());
        Ok(())
    }
}

#[cfg(test)]
mod console {
    use bench::row::RowBench;
    use bench::side::SideBySide;
    use bench::word::WordBench;
    use consoling::runs::console_script;
    use consoling::writers::push_answer;
    use law::calls::{Call, Entry};
    use law::run::run;
    use std::test::Fail;

    #[test]
    fn too_few_registers(rt: HostRuntime) -> Result<(), Fail> {
        let script =
            b"bench word 2047 9\nschedule\nrecord 0\nleft\nbeside\nbench row 256 256 9\nschedule\nrecord 1\n";
        let written = console_script(rt.alloc(), script)?;
        assert_eq!(rt;
            written.as_slice(),
            b"refused 1 unit 0\nrefused 1 unit 0\nleft 9\nbeside\nrefused 8 unit 0\nrefused 5 unit 1\n".as_slice()
        );
        Ok(())
    }

    // Two benches of 64 lanes and one of one lane.
    #[test]
    fn too_many_lanes(rt: HostRuntime) -> Result<(), Fail> {
        let heap = rt.alloc();
        let mut one = vec![in heap; 0u64; 2048]?;
        let mut two = vec![in heap; 0u64; 2048]?;
        let mut row = vec![in heap; 0u8; 256]?;
        let first = SideBySide {
            first: WordBench::new(one.as_mut_slice(), 9),
            second: WordBench::new(two.as_mut_slice(), 9),
        };
        let second = RowBench::new(row.as_mut_slice(), 256, 9);
        let mut log = [Entry {
            call: Call::Record(128),
            answer: None,
        }];
        let _unit = run(SideBySide { first, second }, &mut log);
        let mut out = Vec::new(heap);
        push_answer(&mut out, &log[0])?;
        assert_eq!(rt; out.as_slice(), b"refused 1 unit 0\n".as_slice());
        Ok(())
    }

    #[test]
    fn bench_lines(rt: HostRuntime) -> Result<(), Fail> {
        let heap = rt.alloc();
        assert_eq!(rt;
            console_script(heap, b"# no bench\n\n")?.as_slice(),
            b"".as_slice()
        );
        assert_eq!(rt;
            console_script(heap, b"\nbench word 8\nleft\n")?.as_slice(),
            b"unreadable 2\n".as_slice()
        );
        assert_eq!(rt;
            console_script(heap, b"bench word 8 7\nbeside\n\nleft\n")?.as_slice(),
            b"beside\nunreadable 4\n".as_slice()
        );
        assert!(rt;
            console_script(heap, b"bench word 8 7\nread 0 18446744073709551615\n").is_err()
        );
        Ok(())
    }
}
