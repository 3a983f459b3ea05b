use gsl_text::{first_line, natural, unsigned};

#[test]
fn lines_of_all_ends(rt: HostRuntime) {
    let (line, rest) = first_line(b"a\r\nb\r");
    assert!(rt; !rest.is_empty());
    let (last, none) = first_line(rest);
    assert_eq!(rt;
        [line, rest, last, none],
        [
            b"a".as_slice(),
            b"b\r".as_slice(),
            b"b\r".as_slice(),
            b"".as_slice()
        ]
    );
}

#[test]
fn numbers_to_the_greatest_word(rt: HostRuntime) {
    assert_eq!(rt;
        [
            unsigned(b"0xfFFFffff"),
            unsigned(b"4294967296"),
            unsigned(b"007")
        ],
        [Some(4294967295), None, Some(7)]
    );
    assert_eq!(rt; natural(10, b""), None);
}
