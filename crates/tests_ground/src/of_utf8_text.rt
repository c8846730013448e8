// Of utf8_text: texts and refusals are the same at each cut, and a refusal comes again.
use erl_base::{Fault, Kind, Place, Refusal};
use std::alloc::Global;
use std::str;
use utf8_text::{Pieces, characters};

// The bytes, and the place of the refusal or none for a text.
const TEXTS: [(&[u8], Option<(u64, u64)>); 12] = [
    (b"", None),
    (b"a\nb", None),
    (b"\xc3\xa9\xe0\xa0\x80\xf4\x8f\xbf\xbf\nx", None),
    (b"\xef\xbb\xbfa", None),
    (b"\xe2\x82", Some((1, 1))),
    (b"ab\n\xe2(", Some((2, 1))),
    (b"\xc0\x80", Some((1, 1))),
    (b"\xed\xa0\x80", Some((1, 1))),
    (b"\xf4\x90\x80\x80", Some((1, 1))),
    (b"\xc3\xa9\x80", Some((1, 2))),
    (b"\r\x0c\n\n\xff", Some((3, 1))),
    (b"\xf0\x9f\x98", Some((1, 1))),
];

fn at(place: (u64, u64)) -> Fault {
    let (line, column) = place;
    Fault::Refused(Refusal {
        kind: Kind::NotUtf8,
        place: Place { line, column },
    })
}

// Whether the pieces give the characters of the text, or the refusal.
fn is_read(alloc: Global, pieces: &[&[u8]], text: &[u8], want: Option<(u64, u64)>) -> bool {
    match (characters(alloc, pieces), want) {
        (Ok(found), None) => match str::from_utf8(text) {
            Ok(text) => text.chars().eq(found.as_slice().iter().copied()),
            Err(_) => false,
        },
        (Err(fault), Some(place)) => fault == at(place),
        _ => false,
    }
}

#[test]
fn texts_are_read_however_they_are_cut(rt: HostRuntime) {
    for (text, want) in TEXTS {
        for cut in 0..text.len() + 1 {
            let (before, after) = text.split_at(cut);
            assert!(rt;
                is_read(rt.alloc(), &[before, after], text, want),
                "cut at {cut}"
            );
        }
    }
}

#[test]
fn refuses_again(rt: HostRuntime) {
    let mut text = Pieces::new(rt.alloc());
    assert!(rt; text.feed(b"X\n\xe2").is_ok());
    assert!(rt; text.feed(b"(") == Err(at((2, 1))));
    assert!(rt; text.feed(b"") == Err(at((2, 1))));
    assert!(rt; text.finish(rt.alloc()).is_err());
}
