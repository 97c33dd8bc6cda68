use script::{Command, Mask, WriteRefusal, write};

const LONG: [u8; 76] = [b'x'; 76];

fn add(kind: u16, count: u16) -> Command<'static> {
    Command::Add { kind, count }
}

fn pump_type(rigs: u8, set: u64) -> Command<'static> {
    Command::PumpType(Mask { rigs, set })
}

#[test]
fn later_bytes_stay(rt: HostRuntime) {
    let mut out = [7; 12];
    assert_eq!(rt; write(add(5, 12), &mut out), Ok(9));
    assert_eq!(rt; &out, b"ADD,5,12\n\x07\x07\x07");
}

#[test]
fn a_refusal_changes_no_byte(rt: HostRuntime) {
    let mut out = [7; 8];
    assert_eq!(rt; write(add(5, 12), &mut out), Err(WriteRefusal::NoRoom));
    assert_eq!(rt; write(add(5, 0), &mut out), Err(WriteRefusal::BadField));
    assert_eq!(rt; &out, &[7; 8]);
}

#[test]
fn marks_past_the_last_rig_are_no_part_of_a_mask(rt: HostRuntime) {
    let mut out = [7; 9];
    assert_eq!(rt; write(pump_type(2, 0b110), &mut out), Ok(8));
    assert_eq!(rt; &out, b"TYPE,01\n\x07");
}

#[test]
fn values(rt: HostRuntime) {
    let mut out = [7; 81];
    let mut told = |command| write(command, &mut out);
    assert_eq!(rt; told(add(65535, 4096)), Ok(15));
    assert_eq!(rt; told(add(5, 4097)), Err(WriteRefusal::BadField));
    assert_eq!(rt; told(pump_type(0, 0)), Err(WriteRefusal::BadField));
    assert_eq!(rt; told(pump_type(64, u64::MAX)), Ok(70));
    assert_eq!(rt; told(pump_type(65, 0)), Err(WriteRefusal::BadField));
    assert_eq!(rt; told(pump_type(76, 0)), Err(WriteRefusal::Malformed));
}

#[test]
fn texts(rt: HostRuntime) {
    let mut out = [7; 81];
    assert_eq!(rt; write(Command::Note(b""), &mut out), Ok(6));
    assert_eq!(rt;
        write(Command::Note(b"a,b"), &mut out),
        Err(WriteRefusal::FieldCount)
    );
    assert_eq!(rt;
        write(Command::Note(b"a\tb"), &mut out),
        Err(WriteRefusal::Malformed)
    );
    assert_eq!(rt; write(Command::Note(&LONG[0..75]), &mut out), Ok(81));
    assert_eq!(rt;
        write(Command::Note(&LONG), &mut out),
        Err(WriteRefusal::Malformed)
    );
}

#[test]
fn refusals_have_numbers(rt: HostRuntime) {
    assert_eq!(rt; u8::from(WriteRefusal::Malformed), 8);
    assert_eq!(rt; u8::from(WriteRefusal::FieldCount), 10);
    assert_eq!(rt; u8::from(WriteRefusal::BadField), 11);
    assert_eq!(rt; u8::from(WriteRefusal::NoRoom), 12);
}
