use bounded::Bounded;
use script::{FaultyLine, LineFault, TextRefusal, check as check_text};

const OLD: FaultyLine = FaultyLine {
    line: 99,
    fault: LineFault::Malformed,
};

static TOO_LONG: [u8; 65537] = [b'\n'; 65537];

fn faulty(line: u32, fault: LineFault) -> FaultyLine {
    FaultyLine { line, fault }
}

#[test]
fn a_short_list_holds_the_first_ones(rt: HostRuntime) {
    let mut places = [OLD; 2];
    let mut faults = Bounded::new(&mut places);
    assert_eq!(rt;
        check_text(b"REPORT\nADD,5\nadd,5,1\nADD,05,1", &mut faults),
        Ok(3)
    );
    assert_eq!(rt; faults.get(0), Some(faulty(2, LineFault::FieldCount)));
    assert_eq!(rt; faults.get(1), Some(faulty(3, LineFault::UnknownWord)));
    assert_eq!(rt; faults.get(2), None);
}

#[test]
fn an_accepted_check_starts_its_list_empty(rt: HostRuntime) {
    let mut places = [OLD; 4];
    let mut faults = Bounded::new(&mut places);
    assert_eq!(rt; check_text(b"ADD,5,0\n", &mut faults), Ok(1));
    assert_eq!(rt;
        faults.get(0),
        Some(faulty(1, LineFault::BadField { field: 3 }))
    );
    assert_eq!(rt; check_text(b"REPORT\n", &mut faults), Ok(0));
    assert_eq!(rt; faults.len(), 0);
}

#[test]
fn a_text_too_long_leaves_its_list(rt: HostRuntime) {
    let mut places = [OLD; 4];
    let mut faults = Bounded::new(&mut places);
    assert_eq!(rt; check_text(&TOO_LONG[0..65536], &mut faults), Ok(65536));
    assert_eq!(rt; faults.get(3), Some(faulty(4, LineFault::UnknownWord)));
    assert_eq!(rt;
        check_text(&TOO_LONG, &mut faults),
        Err(TextRefusal::TooLong)
    );
    assert_eq!(rt; faults.len(), 4);
}

#[test]
fn faults_have_numbers_and_fields(rt: HostRuntime) {
    let bad = LineFault::BadField { field: 3 };
    assert_eq!(rt; u8::from(LineFault::UnknownWord), 9);
    assert_eq!(rt; LineFault::UnknownWord.field(), 1);
    assert_eq!(rt; u8::from(LineFault::FieldCount), 10);
    assert_eq!(rt; LineFault::FieldCount.field(), 0);
    assert_eq!(rt; u8::from(bad), 11);
    assert_eq!(rt; bad.field(), 3);
    assert_eq!(rt; u8::from(TextRefusal::TooLong), 7);
}
