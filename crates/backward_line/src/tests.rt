use crate::BackwardLine;

#[test]
fn a_line_is_made_from_its_end(rt: HostRuntime) {
    let mut line = BackwardLine::new();
    line.put_byte(b'\n');
    line.put_signed(-170_141_183_460_469_231_731_687_303_715_884_105_728);
    line.put_byte(b',');
    line.put_signed(-7);
    line.put_byte(b',');
    line.put_signed(18_446_744_073_709_551_616);
    line.put_byte(b',');
    line.put_number(18_446_744_073_709_551_615);
    line.put_byte(b',');
    line.put_number(0);
    line.put_word(b"line,".as_slice());
    assert_eq!(rt;
        line.as_slice(),
        b"line,0,18446744073709551615,18446744073709551616,-7,-170141183460469231731687303715884105728\n".as_slice()
    );
}
