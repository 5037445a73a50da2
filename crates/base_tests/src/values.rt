//! Numbers, distances, cells and lists of names as they are written in rules.

use rule_values::{names, read_cell, read_dist, read_number};

#[test]
fn numbers_and_distances(rt: HostRuntime) {
    let rows = [
        ("", None, None),
        ("0", Some(0), Some(0)),
        ("1536", Some(1536), Some(1536)),
        ("0000000007", Some(7), Some(7)),
        ("9999999999", Some(9_999_999_999), Some(9_999_999_999)),
        ("00000000007", None, None),
        ("+1", None, None),
        ("-1", None, None),
        (" 1", None, None),
        ("1 ", None, None),
        ("0x1", None, None),
        ("\u{ff11}", None, None),
        ("4c768", None, Some(4864)),
        ("4c0", None, Some(4096)),
        ("0c5000", None, Some(5000)),
        ("9999999999c9999999999", None, Some(10_249_999_998_975)),
        ("c5", None, None),
        ("5c", None, None),
        ("4c7c6", None, None),
        ("4C0", None, None),
        ("4c 0", None, None),
        ("4c-1", None, None),
    ];
    for (text, number, dist) in rows {
        assert_eq!(rt; read_number(text), number, "at {text:?}");
        assert_eq!(rt; read_dist(text), dist, "at {text:?}");
    }
}

#[test]
fn cells(rt: HostRuntime) {
    let rows = [
        ("12,7", Some((12, 7))),
        ("0,255", Some((0, 255))),
        (" 12 ,\t7\r", Some((12, 7))),
        ("\u{feff}1 , \u{feff}2 \u{feff}", Some((1, 2))),
        ("0000000001,2", Some((1, 2))),
        ("256,0", None),
        ("0,4294967296", None),
        ("1,2,3", None),
        ("1 2", None),
        (",1", None),
        ("1,", None),
        ("1,\u{a0}2", None),
        ("", None),
    ];
    for (text, cell) in rows {
        assert_eq!(rt; read_cell(text), cell, "at {text:?}");
    }
}

#[test]
fn lists_of_names(rt: HostRuntime) {
    let mut some = names(" Vehicle,,\tair plane \u{feff}, ,Building");
    assert_eq!(rt; some.next(), Some("Vehicle"));
    assert_eq!(rt; some.next(), Some("air plane"));
    assert_eq!(rt; some.next(), Some("Building"));
    assert_eq!(rt; some.next(), None);
    for text in ["", ",", " ,\t, "] {
        assert_eq!(rt; names(text).next(), None, "at {text:?}");
    }
}
