//! Page bodies, byte for byte, and which pages are lawful.
use layout::{BODY, Class, DATA_WORDS, Handle, Page, Word};

// The body that is zero but for these bytes.
fn body(set: &[(usize, u8)]) -> [u8; BODY] {
    let mut bytes = [0; BODY];
    for &(place, byte) in set {
        if let Some(there) = bytes.get_mut(place) {
            *there = byte;
        }
    }
    bytes
}

// Class 2 and slots 0 and 1 make head word 2051, and kinds of words 1 and 3 make 68.
#[test]
fn byte_for_byte(rt: HostRuntime) {
    let mut page = Page {
        class: Class::Two,
        used: [false; DATA_WORDS],
        words: [Word::Number(0); DATA_WORDS],
    };
    page.used[0] = true;
    page.used[1] = true;
    page.words[0] = Word::Number(0x0102_0304);
    page.words[1] = Word::Reference(Handle(321));
    page.words[3] = Word::Reference(Handle(u32::MAX));
    let head = [(0, 3), (1, 8), (4, 68)];
    let data = [(8, 4), (9, 3), (10, 2), (11, 1), (12, 65), (13, 1)];
    let mut bytes = body(&head);
    bytes[8..14].copy_from_slice(&body(&data)[8..14]);
    bytes[20..24].fill(255);
    assert_eq!(rt; page.encode(), bytes);
    assert_eq!(rt; Page::decode(&bytes), Some(page));
    assert_eq!(rt; Page::decode_lawful(&bytes, false), Some(page));
    assert_eq!(rt; page.objects(), 2);
    assert!(rt; page.is_used(1) && !page.is_used(2));
}

#[test]
fn lawful(rt: HostRuntime) {
    let bodies: [(bool, [(usize, u8); 3]); 5] = [
        (false, [(0, 0), (0, 0), (0, 0)]), // a free page
        (false, [(1, 8), (0, 16), (40, 1)]), // word 8 of the last slot of two words
        (false, [(1, 20), (0, 1), (44, 1)]), // word 9 of the slot of ten
        (true, [(1, 24), (0, 0), (0, 0)]), // a root page without references
        (true, [(1, 24), (6, 4), (44, 1)]), // and with one in its last word
    ];
    for (root, set) in bodies {
        let page = Page::decode_lawful(&body(&set), root);
        assert!(rt;
            page.is_some_and(|page| page.is_lawful(root)),
            "{root} {set:?}"
        );
        assert!(rt;
            page.is_some_and(|page| !page.is_lawful(!root)),
            "{root} {set:?}"
        );
    }
}

#[test]
fn unlawful(rt: HostRuntime) {
    let bodies: [(bool, [(usize, u8); 3]); 15] = [
        (false, [(1, 8), (0, 0), (0, 0)]), // slots, and none used
        (false, [(1, 8), (0, 33), (0, 0)]), // a slot that the class does not have
        (false, [(0, 1), (0, 1), (0, 1)]), // a slot of a free page
        (false, [(8, 1), (8, 1), (8, 1)]), // a number in a free page
        (false, [(4, 1), (4, 1), (4, 1)]), // a reference in a free page
        (false, [(1, 8), (0, 1), (16, 1)]), // a word of a slot that is not used
        (false, [(1, 12), (0, 7), (44, 1)]), // the word past three slots of three
        (false, [(1, 28), (0, 1), (0, 1)]), // code 7
        (false, [(1, 40), (0, 1), (0, 1)]), // a bit above the code
        (false, [(1, 8), (0, 1), (4, 2)]), // kind 2
        (false, [(1, 8), (0, 1), (4, 3)]), // kind 3
        (false, [(1, 8), (0, 1), (6, 16)]), // a bit above the kinds
        (true, [(1, 24), (0, 1), (0, 1)]), // a slot of the root page
        (true, [(1, 24), (8, 1), (8, 1)]), // a number in the root page
        (true, [(1, 8), (0, 1), (0, 1)]), // another page in its place
    ];
    for (root, set) in bodies {
        assert!(rt;
            Page::decode_lawful(&body(&set), root).is_none(),
            "{root} {set:?}"
        );
    }
}
