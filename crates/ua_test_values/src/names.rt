//! Qualified names and localized texts: bytes and what they spell.

use ua_test_shared::spelling::{Shown, is_refused, is_text, is_whole, spells};
use ua_value::{LocalizedText, QualifiedName};

struct Qualified;

impl Shown<QualifiedName> for Qualified {
    fn is_shown(&self, name: &QualifiedName) -> bool {
        name.namespace_index == 0x0201 && is_text(&name.name, "a")
    }
}

#[test]
fn qualified_names_have_a_namespace_and_a_text(rt: HostRuntime) {
    let bytes: &[u8] = &[0x01, 0x02, 0x01, 0x00, 0x00, 0x00, 0x61];
    assert!(rt; is_whole::<QualifiedName, Qualified>(rt.alloc(), bytes, &Qualified));
}

/// A locale and a text, each if it is there.
#[derive(Clone, Copy)]
struct Localized<'a>(Option<&'a str>, Option<&'a str>);

impl Shown<LocalizedText> for Localized<'_> {
    fn is_shown(&self, value: &LocalizedText) -> bool {
        value.locale.get() == self.0 && value.text.get() == self.1
    }
}

/// Bytes, the locale and the text, and what is written.
const LOCALIZED: [(&[u8], Option<&str>, Option<&str>, &[u8]); 4] = [
    (&[0x00], None, None, &[0x00]),
    (
        &[
            0x03, 0x02, 0x00, 0x00, 0x00, 0x65, 0x6e, 0xff, 0xff, 0xff, 0xff,
        ],
        Some("en"),
        None,
        &[0x01, 0x02, 0x00, 0x00, 0x00, 0x65, 0x6e],
    ),
    (
        &[0x02, 0x00, 0x00, 0x00, 0x00],
        None,
        Some(""),
        &[0x02, 0x00, 0x00, 0x00, 0x00],
    ),
    (
        &[
            0x03, 0x01, 0x00, 0x00, 0x00, 0x61, 0x01, 0x00, 0x00, 0x00, 0x62,
        ],
        Some("a"),
        Some("b"),
        &[
            0x03, 0x01, 0x00, 0x00, 0x00, 0x61, 0x01, 0x00, 0x00, 0x00, 0x62,
        ],
    ),
];

#[test]
fn localized_texts_leave_out_what_is_absent(rt: HostRuntime) {
    let alloc = rt.alloc();
    for (bytes, locale, text, canon) in &LOCALIZED {
        let want = Localized(*locale, *text);
        assert!(rt;
            spells::<LocalizedText, Localized>(alloc, bytes, bytes.len(), canon, &want),
            "{bytes:?}"
        );
    }
    assert!(rt; is_refused::<LocalizedText>(alloc, &[0x04]));
    assert!(rt; is_refused::<LocalizedText>(alloc, &[0x80]));
}
