// Bench lists: what is skipped, what is refused, and where numbers do not rise.
#[cfg(test)]
mod tests {
    use bench_list::breaks::Break;
    use bench_list::list::ListFault;
    use bench_list::{breaks, list};
    use std::process::Abort;

    // A list that is refused with this fault, where there are three places.
    fn check_fault(rt: &impl Abort, text: &[u8], fault: ListFault) {
        let mut rows = [7u32; 3];
        assert_eq!(rt; list::read_list(text, &mut rows), Err(fault));
    }

    #[test]
    fn rows_and_skipped_lines(rt: HostRuntime) {
        let mut rows = [7u32; 4];
        let read = list::read_list(b"# bench\n\n10\r\n  \t\n0011\n4294967295", &mut rows);
        assert_eq!(rt; read, Ok(3));
        assert_eq!(rt; rows[0], 10);
        assert_eq!(rt; rows[1], 11);
        assert_eq!(rt; rows[2], 4294967295);
        assert_eq!(rt; rows[3], 7);
    }

    #[test]
    fn faults_by_line(rt: HostRuntime) {
        check_fault(&rt, b"1\n2 \n", ListFault::NotANumber { line: 2 });
        check_fault(&rt, b"\n\n+3", ListFault::NotANumber { line: 3 });
        check_fault(&rt, b"4294967296", ListFault::NotANumber { line: 1 });
        check_fault(
            &rt,
            b"1\n2\n3\n4\n",
            ListFault::TooManyRows { line: 4, places: 3 },
        );
        check_fault(&rt, b"1\n2\n3\nfour\n", ListFault::NotANumber { line: 4 });
        check_fault(&rt, b"-1", ListFault::NotANumber { line: 1 });
    }

    #[test]
    fn rows_before_a_fault_are_kept(rt: HostRuntime) {
        let mut rows = [7u32; 3];
        let read = list::read_list(b"5\nx\n6", &mut rows);
        assert_eq!(rt; read, Err(ListFault::NotANumber { line: 2 }));
        assert_eq!(rt; rows[0], 5);
        assert_eq!(rt; rows[1], 7);
    }

    #[test]
    fn places_that_do_not_rise(rt: HostRuntime) {
        let rows = [5u32, 7, 7, 3, 5, 1, 7];
        assert_eq!(rt; breaks::count_breaks(&rows), 3);
        assert_eq!(rt; breaks::break_at(&rows, 0), None);
        assert_eq!(rt;
            breaks::break_at(&rows, 2),
            Some(Break::Duplicate { row: 2, of: 1 })
        );
        assert_eq!(rt; breaks::break_at(&rows, 3), Some(Break::Fall { row: 3 }));
        assert_eq!(rt; breaks::break_at(&rows, 4), None);
        assert_eq!(rt; breaks::break_at(&rows, 5), Some(Break::Fall { row: 5 }));
        assert_eq!(rt; breaks::break_at(&rows, 7), None);
        assert_eq!(rt; breaks::count_breaks(&[]), 0);
    }
}
